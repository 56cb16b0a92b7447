//! The texts that a policy's rules are read from.

ghost use Rattle.std.specs.Prelude.{◌≡◌, ◌++◌, map, IfOk, OnOk};
ghost use Rattle.toml.specs.View.{view, items_view, table_view};
ghost use Rattle.cw_policy.specs.Rules as spec;
ghost use Rattle.cw_policy.specs.Sources.{text_of};

use crate::fault::Path;
use crate::form::{array_at, items_at};
use crate::keys::{Key, Section, narrow, path};
use crate::names::{field, name_of, text_at};
use cw_core::NoMemory;
use std::alloc::Global;
use toml::{Table, Value};

/// The text of a test of a table `at`: its label, whether the label must have it or never, and its path.
#[derive(Clone, Copy, Drop)]
pub struct TestSource<'a> {
    pub label: &'a str,
    pub must: bool,
    pub text: &'a str,
    pub path: Path,
}

/// The text of an expression, with its rule's name and the number of its table.
#[derive(Clone, Copy, Drop)]
pub struct ExpressionSource<'a> {
    pub name: &'a str,
    pub text: &'a str,
    pub index: u32,
}

/// What a rule is read from.
#[derive(Clone, Copy, Drop)]
pub enum Source<'a> {
    Test(TestSource<'a>),
    Expression(ExpressionSource<'a>),
}

/// The number of `must` or `never` among the keys of `at`, from 1.
fn test_key(must: bool) -> u8
    ensures { result ≡ spec.test_key must }
{
    if must { 2 } else { 3 }
}

/// Appends the tests of one key of a table `at`.
fn add_tests<'a>(
    sources: &mut Vec<Source<'a>>,
    index: usize,
    label: &'a str,
    must: bool,
    items: &'a [Value],
) -> Result<(), NoMemory>
    ensures added { OnOk result (map text_of sources.new.items ≡ map text_of sources.old.items ++ spec.tests_in index label.now must 1 (items_view items.now)) }
{
    let mut number = 1;
    'items: for item in items {
        sources.push(Source::Test(TestSource {
            label,
            must,
            text: name_of(item),
            path: path(Section::At, index, test_key(must), number),
        }))?;
        number += 1;
    }
    Ok(())
}

/// Appends the tests of a table `at`: those that must hold, and then those that never may.
fn add_table<'a>(
    sources: &mut Vec<Source<'a>>,
    index: usize,
    item: &'a Value,
) -> Result<(), NoMemory>
    ensures added { OnOk result (map text_of sources.new.items ≡ map text_of sources.old.items ++ spec.tests_of_table index (view item.now)) }
{
    let label = text_at(field(item, "label"));
    add_tests(sources, index, label, true, items_at(field(item, "must")))?;
    add_tests(sources, index, label, false, items_at(field(item, "never")))
}

/// Appends the tests of all tables `at`.
fn add_all_tests<'a>(sources: &mut Vec<Source<'a>>, items: &'a [Value]) -> Result<(), NoMemory>
    ensures added { OnOk result (map text_of sources.new.items ≡ map text_of sources.old.items ++ spec.test_texts 0 (items_view items.now)) }
{
    let mut index = 0;
    'items: for item in items {
        add_table(sources, index, item)?;
        index += 1;
    }
    Ok(())
}

/// Appends the expressions of all tables `rule`.
fn add_expressions<'a>(sources: &mut Vec<Source<'a>>, items: &'a [Value]) -> Result<(), NoMemory>
    ensures added { OnOk result (map text_of sources.new.items ≡ map text_of sources.old.items ++ spec.expression_texts 0 (items_view items.now)) }
{
    let mut index = 0;
    'items: for item in items {
        sources.push(Source::Expression(ExpressionSource {
            name: name_of(item),
            text: text_at(field(item, "bad")),
            index: narrow(index),
        }))?;
        index += 1;
    }
    Ok(())
}

/// The texts of a policy's rules in their order: the tests, and then the expressions.
pub fn sources<'a>(alloc: Global, table: &'a Table) -> Result<Vec<Source<'a>>, NoMemory>
    ensures texts { IfOk result (λ list. map text_of list.items ≡ spec.rule_texts (table_view table.now)) }
{
    let mut list = Vec::new(alloc);
    add_all_tests(&mut list, array_at(table, Key::Ats))?;
    add_expressions(&mut list, array_at(table, Key::Rules))?;
    Ok(list)
}
