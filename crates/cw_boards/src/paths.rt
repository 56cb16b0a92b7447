//! What is seen of the states of a run, and the path that they keep.

ghost use Rattle.std.specs.Prelude.{◌≡◌, ℕ, List, ◌∷◌, IfOk, OnOk, map, filter_map};
ghost use Rattle.cw_syntax.specs.Frames.{Item};
ghost use Rattle.cw_model.specs.Runs.{State, erased};
ghost use Rattle.cw_boards.specs.declared.paths.Front.{Front};
ghost use Rattle.cw_boards.specs.Seen.{passed_by, AreSeen};

use cw_core::NoMemory;
use std::alloc::{AllocError, Global};

/// The item at the front of a state's top frame, by a number that whoever tells the run gives it.
#[derive(Clone, Copy, Drop, Debug, PartialEq, Eq)]
pub struct Front(pub u32);

/// The phase of a state, without what stands in it.
#[derive(Clone, Copy, Drop, Debug, PartialEq, Eq)]
pub enum Phase {
    /// The weaver skips or tries a primitive.
    Visit,
    /// The environment grants or refuses it.
    Asked,
    /// The weaver goes on after a refusal, or stops.
    Refused,
    /// The program steps.
    Free,
    /// The program steps, by a call in a process of its own.
    FreeSplit,
    /// The program is over.
    Over,
}

/// What is seen of a state of a run. There is no front where the program is over.
#[derive(Clone, Copy, Drop, Debug, PartialEq, Eq)]
pub struct Seen {
    pub phase: Phase,
    pub front: Option<Front>,
}

/// The front item that is passed at a state of a run, if one is.
fn passed(seen: Seen) -> Option<Front>
    ensures { result ≡ passed_by seen }
{
    match seen.phase {
        Phase::Free | Phase::FreeSplit => seen.front,
        Phase::Visit | Phase::Asked | Phase::Refused | Phase::Over => None,
    }
}

/// The front items that are passed, in their order.
fn passed_all(alloc: Global, states: &[Seen]) -> Result<Vec<Front>, AllocError>
    ensures { IfOk result (λ path. path.items ≡ filter_map passed_by states.now) }
{
    let mut path = Vec::new(alloc);
    for seen in states {
        if let Some(front) = passed(*seen) {
            path.push(front)?;
        }
    }
    Ok(path)
}

/// The erased path of a run of which these states are seen, the first state first: the fronts that the program's steps pass,
/// in order. From the last state no step is made yet.
///
/// Public source: the instrumented programs of Harris, Jha, Reps, Anderson and Watson (2013).
pub fn erased(alloc: Global, states: &[Seen]) -> Result<Vec<Front>, NoMemory>
    ensures erased { IfOk result (λ path. (item : ℕ → Item) (s : State) (run : List State) → AreSeen item (s ∷ run) states.now →
        map (λ (front : Front). item front.0) path.items ≡ erased s run) }
{
    if states.is_empty() {
        return Ok(Vec::new(alloc));
    }
    let before = &states[..states.len() - 1];
    let path = passed_all(alloc, before)?;
    Ok(path)
}
