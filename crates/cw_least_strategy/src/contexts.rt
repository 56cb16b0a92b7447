//! The contexts of a solved game, looked up.

ghost use Rattle.std.specs.Prelude.{◌<◌, length, slice_index, IsTrue, IfOk};
ghost use Rattle.cw_product.specs.Product.{game_of};
ghost use Rattle.cw_product.specs.Routed.{AreRouted};
ghost use Rattle.cw_least_strategy.specs.Acts.{IsIn, IsThere};
ghost use Rattle.cw_least_strategy.specs.Heights.{others};
ghost use Rattle.cw_least_strategy.specs.Numbered.{AreNumbered, HasPosition};
ghost use Rattle.cw_least_strategy.specs.Small.{Ascend};

use crate::aims::aim_number;
use crate::heights::others;
use crate::key::SmallKey;
use cw_core::{PosId, StateId, StateSet};
use cw_solve::Solved;
use std::alloc::{AllocError, Global};

/// A context by what is known of a key: what its promise leaves out, and where its function ends.
#[derive(Clone, Copy, Drop, PartialEq, Eq, PartialOrd, Ord)]
struct Entry {
    aim: StateSet,
    last: u32,
    number: u32,
}

/// The contexts of a solved game in the order of their entries, and where those of each aim begin. What is found there is tested,
/// so no proof rests on the order. Of each context by its number the number of its aim (`AreNumbered`).
#[derive(Drop)]
pub(crate) struct Entries {
    entries: Vec<Entry>,
    firsts: Vec<usize>,
    numbers: Vec<u32>,
}

/// The entry of a context.
fn entry_of(solved: &Solved, number: u32) -> Entry
    requires routed { AreRouted (game_of solved.now.game) (length solved.now.game.graph.parts.items) }
    requires number { number < length solved.now.contexts }
{
    solved.fact_contexts_are_needed();
    let context = solved.context(number);
    Entry {
        aim: others(solved.game(), &context.promise),
        last: solved.game().exit(context.function).0,
        number,
    }
}

/// The indices at which another aim begins, where entries of one aim stand side by side.
fn firsts_of(alloc: Global, entries: &[Entry]) -> Result<Vec<usize>, AllocError> {
    let mut firsts = Vec::new(alloc);
    for index in 0..entries.len() {
        if index == 0 || entries[index - 1].aim != entries[index].aim {
            firsts.push(index)?;
        }
    }
    Ok(firsts)
}

/// The numbers that the aims of all contexts have.
fn numbers_of(alloc: Global, solved: &Solved, aims: &[StateSet]) -> Result<Vec<u32>, AllocError>
    requires routed { AreRouted (game_of solved.now.game) (length solved.now.game.graph.parts.items) }
    requires ascend { Ascend aims.now }
    ensures { IfOk result (λ v. AreNumbered solved.now aims.now v.items) }
{
    let mut numbers = Vec::new(alloc);
    for number in 0..solved.contexts() {
        let aim = others(solved.game(), &solved.context(number).promise);
        numbers.push(aim_number(aims, &aim))?;
    }
    Ok(numbers)
}

/// Whether a position is one of the function of a context.
#[inline(always)]
fn has_position(solved: &Solved, number: u32, pos: u32) -> bool
    requires routed { AreRouted (game_of solved.now.game) (length solved.now.game.graph.parts.items) }
    requires number { number < length solved.now.contexts }
    ensures { IsTrue result → HasPosition solved.now number pos }
{
    solved.fact_contexts_are_needed();
    let function = solved.context(number).function;
    let game = solved.game();
    game.entry(function).0 <= pos && pos <= game.exit(function).0
}

impl Entries {
    /// The entries of all contexts.
    pub(crate) fn make(
        alloc: Global,
        solved: &Solved,
        aims: &[StateSet],
    ) -> Result<Entries, AllocError>
        requires routed { AreRouted (game_of solved.now.game) (length solved.now.game.graph.parts.items) }
        requires ascend { Ascend aims.now }
        ensures { IfOk result (λ e. AreNumbered solved.now aims.now e.numbers.items) }
    {
        let mut entries = Vec::new(alloc);
        for number in 0..solved.contexts() {
            entries.push(entry_of(solved, number))?;
        }
        entries.sort()?;
        let firsts = firsts_of(alloc, &entries)?;
        let numbers = numbers_of(alloc, solved, aims)?;
        Ok(Entries {
            entries,
            firsts,
            numbers,
        })
    }

    /// Whether the context of a number has a key, by the number of the key's aim.
    #[inline(always)]
    pub(crate) fn has(
        &self,
        solved: &Solved,
        aims: &[StateSet],
        number: u32,
        key: &SmallKey,
    ) -> bool
        requires routed { AreRouted (game_of solved.now.game) (length solved.now.game.graph.parts.items) }
        requires numbered { AreNumbered solved.now aims.now self.now.numbers.items }
        requires aim { key.now.aim < length aims.now }
        requires state { key.now.state < (game_of solved.now.game).states.count }
        ensures { IsTrue result → IsIn solved.now number (slice_index aims.now key.now.aim) key.now.pos key.now.state }
    {
        let _ = aims;
        solved.fact_contexts_are_needed();
        match self.numbers.get(number as usize) {
            Some(aim) if *aim == key.aim => has_position(solved, number, key.pos),
            _ => false,
        }
    }

    /// The number of the one context that may have a position and the aim of this number, as aims stand in order.
    fn number_near(&self, pos: PosId, aim: u32) -> u32 {
        let Some(first) = self.firsts.get(aim as usize) else {
            return 0;
        };
        let end = match self.firsts.get(aim as usize + 1) {
            None => self.entries.len(),
            Some(end) => *end,
        };
        let Some(entries) = self.entries.get(*first..end) else {
            return 0;
        };
        match entries.get(entries.partition_point(|entry| entry.last < pos.0)) {
            None => 0,
            Some(entry) => entry.number,
        }
    }

    /// The number of the one context that may have this aim and this position.
    fn number_at(&self, pos: PosId, aim: &StateSet) -> u32 {
        let wanted = Entry {
            aim: *aim,
            last: pos.0,
            number: 0,
        };
        match self
            .entries
            .get(self.entries.partition_point(|entry| *entry < wanted))
        {
            None => 0,
            Some(entry) => entry.number,
        }
    }

    /// The number of a context that has a position and promises all states but those of an aim. A number is looked at first that
    /// the aim may have among all aims: a key knows that of its own.
    pub(crate) fn context_of(
        &self,
        solved: &Solved,
        pos: PosId,
        state: StateId,
        aim: &StateSet,
        near: u32,
    ) -> u32
        requires routed { AreRouted (game_of solved.now.game) (length solved.now.game.graph.parts.items) }
        requires there { IsThere (game_of solved.now.game) pos.0 aim.now }
        requires state { state.0 < (game_of solved.now.game).states.count }
        ensures { IsIn solved.now result aim.now pos.0 state.0 }
    {
        let _ = state;
        solved.fact_contexts_are_needed();
        let promise = others(solved.game(), aim);
        let number = self.number_near(pos, near);
        if solved.has_position(number, pos, &promise) {
            return number;
        }
        let number = self.number_at(pos, aim);
        if solved.has_position(number, pos, &promise) {
            number
        } else {
            solved.number_of(pos, &promise)
        }
    }
}
