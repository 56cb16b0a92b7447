//! The rules of a policy, read from their texts.

ghost use Rattle.std.specs.Prelude.{◌≡◌, ◌⊎◌, ◌≤◌, length, map, IfOk, IfErr, OnOk};
ghost use Rattle.indexmap.specs.IndexSet.{index_set_len};
ghost use Rattle.cw_core.specs.Quantities.{limit_of};
ghost use Rattle.cw_rights.specs.Policies.{rule_of};
ghost use Rattle.cw_rights.specs.Trees.{tree_of};
ghost use Rattle.cw_regex.specs.Labels.{names_in};
ghost use Rattle.cw_regex.specs.Meaning.{names_of, number_in};
ghost use Rattle.cw_policy.specs.Rules as spec;
ghost use Rattle.cw_policy.specs.Sources.{test_text, expression_text, text_of};

use crate::fault::PolicyFault;
use crate::sources::{ExpressionSource, Source, TestSource};
use cw_core::{NoMemory, Quantity};
use cw_regex::{RegexFault, read_regex, read_test};
use cw_rights::{Descriptor, Lit, Regex, Rule, Test};
use indexmap::IndexSet;
use std::alloc::Global;

/// The number of a label, 0 where it has none.
fn label_number(labels: &IndexSet<Vec<u8>>, label: &str) -> u16
    requires { index_set_len labels.now ≤ 65535 }
    ensures { result ≡ number_in (names_in labels.now.keys) label.now }
{
    match labels.get_index_of(label.as_bytes()) {
        None => 0,
        Some(number) => number as u16,
    }
}

/// The name of the rule that a test makes: its label, `must` or `never`, and its text.
fn test_name(alloc: Global, test: &TestSource) -> Result<Vec<u8>, NoMemory>
    ensures name { IfOk result (λ name. name.items ≡ spec.test_name (test_text test.now)) }
{
    let mut name = Vec::new(alloc);
    name.extend_from_slice(test.label.as_bytes())?;
    let kind = if test.must { " must " } else { " never " };
    name.extend_from_slice(kind.as_bytes())?;
    name.extend_from_slice(test.text.as_bytes())?;
    Ok(name)
}

/// The words that a test forbids: any letters, and then its label where the test holds.
fn bad_words(alloc: Global, label: u16, test: (bool, Test)) -> Result<Regex, NoMemory>
    ensures words { IfOk result (λ bad. tree_of bad ≡ spec.bad_words label test) }
{
    let any = Regex::Lit(Lit {
        label: None,
        tests: Vec::new(alloc),
    });
    let last = Regex::Lit(Lit {
        label: Some(label),
        tests: Vec::from_array(alloc, [test])?,
    });
    let parts = Vec::from_array(alloc, [Regex::Star(Box::new(alloc, any)?), last])?;
    Ok(Regex::Cat(parts))
}

/// A test as what is bad: one that must hold is bad where it doesn't.
fn turned(must: bool, test: (bool, Test)) -> (bool, Test)
    ensures { result ≡ spec.turned must test }
{
    if must { (!test.0, test.1) } else { test }
}

/// The rule of a test that was read.
fn test_rule(
    alloc: Global,
    test: &TestSource,
    label: u16,
    read: (bool, Test),
) -> Result<Rule, NoMemory>
    ensures name { IfOk result (λ r. r.name.items ≡ spec.test_name (test_text test.now)) }
    ensures bad { IfOk result (λ r. tree_of r.bad ≡ spec.bad_words label (spec.turned test.now.must read)) }
{
    Ok(Rule {
        name: test_name(alloc, test)?,
        bad: bad_words(alloc, label, turned(test.must, read))?,
    })
}

/// The rule of a test; its fault is `Kind` where the text is none.
fn read_test_rule(
    alloc: Global,
    format: u8,
    test: &TestSource,
    descriptors: &[Descriptor],
    labels: &IndexSet<Vec<u8>>,
) -> Result<Rule, PolicyFault>
    requires format { (format ≡ 1) ⊎ (format ≡ 2) }
    requires few { length descriptors.now ≤ limit_of Quantity.Descriptors }
    requires names { index_set_len labels.now ≤ 65535 }
    ensures rule { IfOk result (λ r. spec.HasTest format (names_of descriptors.now) (names_in labels.now.keys) (test_text test.now) (rule_of r)) }
    ensures fault { IfErr result (spec.OrMemory (spec.IsRuleFault format (names_of descriptors.now) (spec.tested (test_text test.now)))) }
{
    if test.text.len() > 65535 {
        return Err(PolicyFault::NoMemory);
    }
    match read_test(test.text, descriptors, format) {
        Err(_) => Err(PolicyFault::Kind(test.path)),
        Ok(read) => match test_rule(alloc, test, label_number(labels, test.label), read) {
            Ok(rule) => Ok(rule),
            Err(_) => Err(PolicyFault::NoMemory),
        },
    }
}

/// The fault of an expression as one of its policy.
fn regex_fault(index: u32, fault: RegexFault) -> PolicyFault
    ensures { result ≡ spec.regex_fault index fault }
{
    match fault {
        RegexFault::TooDeep => PolicyFault::Limit(Quantity::Nesting),
        RegexFault::NoMemory => PolicyFault::NoMemory,
        _ => PolicyFault::Regex(index, fault),
    }
}

/// A copy of a text.
fn copied(alloc: Global, text: &str) -> Result<Vec<u8>, PolicyFault>
    ensures bytes { IfOk result (λ copy. copy.items ≡ text.now) }
    ensures fault { IfErr result (λ f. f ≡ PolicyFault.NoMemory) }
{
    match Vec::from_slice(alloc, text.as_bytes()) {
        Ok(copy) => Ok(copy),
        Err(_) => Err(PolicyFault::NoMemory),
    }
}

/// The rule of an expression; its labels are numbered on.
fn read_expression(
    alloc: Global,
    format: u8,
    source: &ExpressionSource,
    descriptors: &[Descriptor],
    labels: &mut IndexSet<Vec<u8>>,
) -> Result<Rule, PolicyFault>
    requires format { (format ≡ 1) ⊎ (format ≡ 2) }
    requires few { length descriptors.now ≤ limit_of Quantity.Descriptors }
    ensures rule { IfOk result (λ r. spec.HasExpression format (names_of descriptors.now) (names_in labels.old.keys) (expression_text source.now) (rule_of r) (names_in labels.new.keys)) }
    ensures names { OnOk result (index_set_len labels.new ≤ 65535) }
    ensures fault { IfErr result (spec.OrMemory (spec.IsRuleFault format (names_of descriptors.now) (spec.written (expression_text source.now)))) }
{
    if labels.len() > 65535 || source.text.len() > 65535 - labels.len() {
        return Err(PolicyFault::NoMemory);
    }
    let name = copied(alloc, source.name)?;
    match read_regex(alloc, source.text, descriptors, labels, format) {
        Ok(bad) => Ok(Rule { name, bad }),
        Err(fault) => Err(regex_fault(source.index, fault)),
    }
}

/// A rule from its text.
fn read_rule(
    alloc: Global,
    format: u8,
    source: &Source,
    descriptors: &[Descriptor],
    labels: &mut IndexSet<Vec<u8>>,
) -> Result<Rule, PolicyFault>
    requires format { (format ≡ 1) ⊎ (format ≡ 2) }
    requires few { length descriptors.now ≤ limit_of Quantity.Descriptors }
    requires names { index_set_len labels.old ≤ 65535 }
    ensures rule { IfOk result (λ r. spec.HasRule format (names_of descriptors.now) (names_in labels.old.keys) (text_of source.now) (rule_of r) (names_in labels.new.keys)) }
    ensures names { OnOk result (index_set_len labels.new ≤ 65535) }
    ensures fault { IfErr result (spec.OrMemory (spec.IsRuleFault format (names_of descriptors.now) (text_of source.now))) }
{
    match source {
        Source::Test(test) => read_test_rule(alloc, format, test, descriptors, labels),
        Source::Expression(expression) => {
            read_expression(alloc, format, expression, descriptors, labels)
        }
    }
}

/// Reads the rules from their texts in order: new labels of expressions go to the end of the labels. The fault is that
/// of the first text that is refused.
pub fn read_rules(
    alloc: Global,
    format: u8,
    sources: &[Source],
    descriptors: &[Descriptor],
    labels: &mut IndexSet<Vec<u8>>,
) -> Result<Vec<Rule>, PolicyFault>
    requires format { (format ≡ 1) ⊎ (format ≡ 2) }
    requires few { length descriptors.now ≤ limit_of Quantity.Descriptors }
    requires names { index_set_len labels.old ≤ 65535 }
    ensures rules { IfOk result (λ rules. spec.HaveRules format (names_of descriptors.now) (names_in labels.old.keys) (map text_of sources.now) (map rule_of rules.items) (names_in labels.new.keys)) }
    ensures names { OnOk result (index_set_len labels.new ≤ 65535) }
    ensures fault { IfErr result (spec.OrMemory (spec.FirstRefused format (names_of descriptors.now) (names_in labels.old.keys) (map text_of sources.now))) }
{
    let mut rules = Vec::new(alloc);
    'sources: for source in sources {
        match read_rule(alloc, format, source, descriptors, labels) {
            Ok(rule) => {
                if rules.push(rule).is_err() {
                    return Err(PolicyFault::NoMemory);
                }
            }
            Err(fault) => return Err(fault),
        }
    }
    Ok(rules)
}
