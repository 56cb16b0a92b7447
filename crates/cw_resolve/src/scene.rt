//! The names by which what a source does is looked up.

ghost use Rattle.std.specs.Prelude.{◌≡◌, ◌≤◌, map, is_some, length, IfOk};
ghost use Rattle.std.specs.Fmt.{decimal};
ghost use Rattle.std.specs.List.{list_any};
ghost use Rattle.std.specs.Str.{bytes_eq};
ghost use Rattle.cw_syntax.specs.Names.{slice, text, number_in, number_or_other};
ghost use Rattle.cw_syntax.specs.Trees.{definition_of};
ghost use Rattle.cw_rights.specs.Policies.{descriptor_of, policy_of};
ghost use Rattle.cw_resolve.specs.Held.{lists};
ghost use Rattle.cw_resolve.specs.Listed.{scene_by, text_at};
ghost use Rattle.cw_resolve.specs.Own.{own_scene};
ghost use Rattle.cw_resolve.specs.Scenes.{scene_in};

use crate::labelled::{Labelled, put_function_labels};
use crate::name_list::NameList;
use cw_rights::{Descriptor, Policy};
use cw_syntax::checked::Checked;
use cw_syntax::names;
use cw_syntax::program::{Function, Name};
use itoa::Buffer;
use std::alloc::{AllocError, Global};
use std::marker::Model;

/// A source with the names of its functions, and those of a policy or its own labels. It is made once; then no look-up takes memory, or
/// walks over many names.
///
/// Contracts see the source and the lists of names.
#[derive(Drop)]
pub struct Scene<'s> {
    source: &'s [u8],
    functions: NameList<'s>,
    descriptors: NameList<'s>,
    labels: NameList<'s>,
    splits: NameList<'s>,
}

impl<'s> Model for Scene<'s> {
    ghost use Rattle.cw_syntax.specs.Plans as plans;
    ghost use Rattle.cw_resolve.specs.Listed.{scene_by};

    ghost Value = { plans.Scene };

    ghost view = { λ s. scene_by s.source.now s.functions s.descriptors s.labels s.splits };
}

impl<'s> Scene<'s> {
    /// A source under the names of a policy.
    pub fn under(
        alloc: Global,
        checked: &Checked<'s>,
        policy: &'s Policy,
    ) -> Result<Scene<'s>, AllocError>
        ensures scene { IfOk result (λ scene. scene ≡ scene_in checked.now (policy_of policy.now)) }
    {
        let functions = function_texts(alloc, checked.source, &checked.program.functions)?;
        let descriptors = descriptor_texts(alloc, &policy.descriptors)?;
        let labels = texts(alloc, &policy.labels)?;
        let splits = texts(alloc, &policy.split)?;
        Scene::of(
            alloc,
            checked.source,
            functions,
            descriptors,
            labels,
            splits,
        )
    }

    /// A source under its own labels and no other names.
    pub fn own(alloc: Global, checked: &Checked<'s>) -> Result<Scene<'s>, AllocError>
        ensures scene { IfOk result (λ scene. scene ≡ own_scene checked.now) }
    {
        let functions = function_texts(alloc, checked.source, &checked.program.functions)?;
        let mut labelled = Vec::new(alloc);
        put_function_labels(&checked.program.functions, &mut labelled)?;
        let labels = label_texts(alloc, checked.source, &labelled)?;
        let descriptors = Vec::new(alloc);
        let splits = Vec::new(alloc);
        Scene::of(
            alloc,
            checked.source,
            functions,
            descriptors,
            labels,
            splits,
        )
    }

    /// A source with these names of functions, descriptors, labels, and functions whose calls may be split off.
    fn of(
        alloc: Global,
        source: &'s [u8],
        functions: Vec<&'s [u8]>,
        descriptors: Vec<&'s [u8]>,
        labels: Vec<&'s [u8]>,
        splits: Vec<&'s [u8]>,
    ) -> Result<Scene<'s>, AllocError>
        ensures { IfOk result (λ scene. scene ≡ scene_by source.now (map text_at functions.entry.items) (map text_at descriptors.entry.items) (map text_at labels.entry.items) (map text_at splits.entry.items)) }
    {
        let functions = NameList::of(alloc, functions)?;
        let descriptors = NameList::of(alloc, descriptors)?;
        let labels = NameList::of(alloc, labels)?;
        let splits = NameList::of(alloc, splits)?;
        Ok(Scene {
            source,
            functions,
            descriptors,
            labels,
            splits,
        })
    }

    /// The bytes of the source.
    pub fn source(&self) -> &'s [u8]
        ensures source { result.now ≡ self.now.source }
    {
        self.source
    }

    /// The bytes of the source from one place up to another, as far as the source goes.
    pub fn slice(&self, from: u32, to: u32) -> &'s [u8]
        ensures bytes { result.now ≡ slice self.now.source from to }
    {
        names::slice(self.source, from, to)
    }

    /// The bytes of a name.
    pub fn text(&self, name: Name) -> &'s [u8]
        ensures bytes { result.now ≡ text self.now.source name }
    {
        names::text(self.source, name)
    }

    /// How many functions there are.
    pub fn function_count(&self) -> usize
        ensures count { result ≡ length self.now.functions }
    {
        self.functions.count()
    }

    /// The number of the defined function with this name, in the order of definition.
    pub fn function_named(&self, name: &[u8]) -> Option<usize>
        ensures number { result ≡ number_in self.now.functions name.now }
    {
        self.functions.number(name)
    }

    /// The number of the descriptor with this name.
    pub fn descriptor_named(&self, name: &[u8]) -> Option<usize>
        ensures number { result ≡ number_in self.now.names.descriptors name.now }
    {
        self.descriptors.number(name)
    }

    /// The number of the descriptor whose name is the decimal of this number.
    pub fn descriptor_numbered(&self, n: u64) -> Option<usize>
        ensures number { result ≡ number_in self.now.names.descriptors (decimal n) }
    {
        let mut buffer = Buffer::new();
        let digits = buffer.format(n).as_bytes();
        self.descriptors.number(digits)
    }

    /// Whether calls of the function with this name may be split off.
    pub fn is_split(&self, name: &[u8]) -> bool
        ensures split { result ≡ is_some (number_in self.now.names.splits name.now) }
    {
        self.splits.number(name).is_some()
    }

    /// How many labels there are.
    pub fn label_count(&self) -> usize
        ensures count { result ≡ length self.now.names.labels }
    {
        self.labels.count()
    }

    /// Whether a label has this name.
    pub fn has_label(&self, name: &[u8]) -> bool
        ensures label { result ≡ list_any (bytes_eq name.now) self.now.names.labels }
    {
        self.labels.has(name)
    }

    /// The number of the label with this name, or the number of labels for any other.
    pub fn label_number(&self, name: &[u8]) -> u16
        requires labels { length self.now.names.labels ≤ 65535 }
        ensures number { result ≡ number_or_other self.now.names.labels name.now }
    {
        match self.labels.number(name) {
            Some(i) => i as u16,
            None => self.labels.count() as u16,
        }
    }
}

/// The names of functions.
fn function_texts<'s>(
    alloc: Global,
    source: &'s [u8],
    functions: &[Function],
) -> Result<Vec<&'s [u8]>, AllocError>
    ensures { IfOk result (λ texts. map text_at texts.items ≡ map (λ f. text source.now f.name) (map definition_of functions.now)) }
{
    let mut texts = Vec::new(alloc);
    for function in functions {
        texts.push(names::text(source, function.name))?;
    }
    Ok(texts)
}

/// The names of labels.
fn label_texts<'s>(
    alloc: Global,
    source: &'s [u8],
    labels: &[Labelled],
) -> Result<Vec<&'s [u8]>, AllocError>
    ensures { IfOk result (λ texts. map text_at texts.items ≡ map (λ l. text source.now l.name) labels.now) }
{
    let mut texts = Vec::new(alloc);
    for label in labels {
        texts.push(names::text(source, label.name))?;
    }
    Ok(texts)
}

/// The names of descriptors.
fn descriptor_texts<'s>(
    alloc: Global,
    descriptors: &'s [Descriptor],
) -> Result<Vec<&'s [u8]>, AllocError>
    ensures { IfOk result (λ texts. map text_at texts.items ≡ map (λ d. d.name) (map descriptor_of descriptors.now)) }
{
    let mut texts = Vec::new(alloc);
    for descriptor in descriptors {
        texts.push(descriptor.name.as_slice())?;
    }
    Ok(texts)
}

/// These names, by their bytes.
fn texts<'s>(alloc: Global, names: &'s [Vec<u8>]) -> Result<Vec<&'s [u8]>, AllocError>
    ensures { IfOk result (λ texts. map text_at texts.items ≡ lists names.now) }
{
    let mut texts = Vec::new(alloc);
    for name in names {
        texts.push(name.as_slice())?;
    }
    Ok(texts)
}
