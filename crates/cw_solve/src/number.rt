//! Contexts by position and promise.

ghost use Rattle.std.specs.Prelude.{◌≡◌, ◌&&◌, nat_le};

use crate::solved::Solved;
use cw_core::{PosId, StateSet};

/// Whether a position is among those of a function, by its first and its last.
fn is_between(first: PosId, pos: PosId, last: PosId) -> bool
    ensures { result ≡ (nat_le first.0 pos.0 && nat_le pos.0 last.0) }
{
    first.0 <= pos.0 && pos.0 <= last.0
}

impl<'g> Solved<'g> {
    ghost use Rattle.std.specs.Prelude.{◌≡◌, ◌<◌, slice_get};
    ghost use Rattle.cw_product.specs.Product.{game_of};
    ghost use Rattle.cw_product.specs.Moves.{IsPosition};
    ghost use Rattle.cw_solve.specs.Numbering.{has_position, IsUnder, IsNumberOf};

    /// Whether there is a context of this number, with a position and this promise.
    pub fn has_position(&self, number: u32, pos: PosId, promise: &StateSet) -> bool
        ensures { result ≡ has_position (game_of self.now.game) pos.0 promise.now (slice_get self.now.contexts number) }
    {
        self.fact_is_kept();
        if number >= self.contexts() {
            return false;
        }
        let game = self.game();
        let context = self.context(number);
        let first = game.entry(context.function);
        let last = game.exit(context.function);
        if context.promise == *promise {
            is_between(first, pos, last)
        } else {
            false
        }
    }

    // The function that may have a position.
    fn function_near(&self, pos: PosId) -> u16
        requires { IsPosition (game_of self.now.game) pos.0 }
    {
        let game = self.game();
        let point = game.site(pos).point;
        match game.graph().nodes.get(point.0 as usize) {
            None => 0,
            Some(node) => node.function,
        }
    }

    // The same as `number_of`, by going over all contexts.
    fn number_among(&self, pos: PosId, promise: &StateSet) -> u32
        requires under { IsUnder (game_of self.now.game) pos.0 promise.now }
        ensures { IsNumberOf (game_of self.now.game) self.now.contexts result promise.now pos.0 }
    {
        self.fact_is_kept();
        for number in 0..self.contexts() {
            if self.has_position(number, pos, promise) {
                return number;
            }
        }
        unreachable!()
    }

    /// The number of a context that has a position and this promise, where some needed context has both.
    pub fn number_of(&self, pos: PosId, promise: &StateSet) -> u32
        requires under { IsUnder (game_of self.now.game) pos.0 promise.now }
        ensures { IsNumberOf (game_of self.now.game) self.now.contexts result promise.now pos.0 }
    {
        self.fact_is_kept();
        let near = self.number_near(self.function_near(pos), promise);
        if self.has_position(near, pos, promise) {
            near
        } else {
            self.number_among(pos, promise)
        }
    }
}
