//! The calls that wait, of all processes: links that share their tails, so that a fork copies one number.

ghost use Rattle.std.specs.Prelude.{◌≡◌, ◌+◌, ◌<◌, ◌≤◌, ◌^◌, ◌∷◌, List, option_map, vec_len, vec_capacity, IfSome};
ghost use Rattle.std.specs.List.{All};
ghost use Rattle.cw_game.specs.Games.{Game as GameOf};
ghost use Rattle.cw_run.specs.Walks.{Wait as WaitOf, wait_of, next_is, first_of, without_first, waits_after, entered, IsWait, IsNextIn};
ghost use Rattle.cw_procs.specs.Walks.{links_of, Stack, AreKept};

use cw_run::{Next, Wait};

/// A call that waits, and the index of the call below it in the list of links.
#[derive(Clone, Copy, Drop)]
pub(crate) struct Link {
    pub wait: Wait,
    pub below: Option<u32>,
}

/// The innermost of the calls that wait, from this index of the links on.
pub(crate) fn innermost(links: &[Link], calls: Option<u32>) -> Option<Wait>
    ensures is { (waits : List WaitOf) → Stack (links_of links.now) calls waits → option_map wait_of result ≡ first_of waits }
    ensures range { (g : GameOf) → All (λ l. IsWait g (wait_of l.wait)) links.now → IfSome result (λ w. IsWait g (wait_of w)) }
{
    match calls {
        None => None,
        Some(index) => match links.get(index as usize) {
            None => None,
            Some(link) => Some(link.wait),
        },
    }
}

/// The calls below the innermost one.
fn below(links: &[Link], calls: Option<u32>) -> Option<u32>
    ensures rest { (waits : List WaitOf) → Stack (links_of links.now) calls waits → Stack (links_of links.now) result (without_first waits) }
{
    match calls {
        None => None,
        Some(index) => match links.get(index as usize) {
            None => None,
            Some(link) => link.below,
        },
    }
}

/// One call more waits, for which there is room.
fn wait_for(links: &mut Vec<Link>, calls: Option<u32>, wait: Wait) -> Option<u32>
    requires room { vec_len links.old < vec_capacity links.old }
    requires few { vec_len links.old < 2 ^ 32 }
    ensures stacks { (waits : List WaitOf) → Stack (links_of links.old.items) calls waits → Stack (links_of links.new.items) result (wait_of wait ∷ waits) }
    ensures kept { AreKept (links_of links.old.items) (links_of links.new.items) }
    ensures all { (g : GameOf) → IsWait g (wait_of wait) → All (λ l. IsWait g (wait_of l.wait)) links.old.items → All (λ l. IsWait g (wait_of l.wait)) links.new.items }
    ensures length { vec_len links.new ≡ vec_len links.old + 1 }
    ensures capacity { vec_capacity links.new ≡ vec_capacity links.old }
{
    let index = links.as_slice().len() as u32;
    links.push_reserved(Link { wait, below: calls });
    Some(index)
}

/// The calls that wait after a move.
pub(crate) fn follow(links: &mut Vec<Link>, calls: Option<u32>, next: Next) -> Option<u32>
    requires room { vec_len links.old + entered (next_is next) ≤ vec_capacity links.old }
    requires few { vec_len links.old < 2 ^ 32 }
    ensures stacks { (waits : List WaitOf) → Stack (links_of links.old.items) calls waits → Stack (links_of links.new.items) result (waits_after (next_is next) waits) }
    ensures kept { AreKept (links_of links.old.items) (links_of links.new.items) }
    ensures all { (g : GameOf) → IsNextIn g (next_is next) → All (λ l. IsWait g (wait_of l.wait)) links.old.items → All (λ l. IsWait g (wait_of l.wait)) links.new.items }
    ensures length { vec_len links.new ≡ vec_len links.old + entered (next_is next) }
    ensures capacity { vec_capacity links.new ≡ vec_capacity links.old }
{
    match next {
        Next::Into(_, wait) => wait_for(links, calls, wait),
        Next::Back(_) => below(links, calls),
        Next::To(_) | Next::Over | Next::Resumed(_) | Next::Stopped(_) => calls,
    }
}
