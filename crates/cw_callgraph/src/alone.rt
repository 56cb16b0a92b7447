//! One function alone: what it reaches, and the least place that forbids splitting it, by the statements of what it reaches and of no other
//! function.

ghost use Rattle.std.specs.Prelude.{◌≡◌, ◌<◌, ◌≤◌, List, ℕ, length, map, IfOk};
ghost use Rattle.std.specs.List.{All};
ghost use Rattle.cw_syntax.specs.Trees.{definition_of, file_of};
ghost use Rattle.cw_callgraph.specs.Finding.{AreBelow, AreReached, Finds, IsFound, spelled_in};
ghost use Rattle.cw_callgraph.specs.Forbidding.{body_places};
ghost use Rattle.cw_callgraph.specs.Lowest.{at, forbidden, lowest};
ghost use Rattle.cw_callgraph.specs.Walking.{scene_at, file_at, head_bar, body_bar};
ghost use Rattle.cw_resolve.specs.Soonest.{sooner, soonest};

use crate::bars::body_bar;
use crate::callees::find_callees_of_all;
use crate::found::{Found, nothing};
use crate::heads::head_place;
use crate::scopes::{Known, file_scope};
use crate::statements::Setting;
use cw_core::NoMemory;
use cw_resolve::{Scene, sooner};
use cw_syntax::program::{Function, Program};
use std::alloc::Global;

/// The functions that the one with this number calls are found.
fn find_called(
    scene: &Scene,
    functions: &[Function],
    function: usize,
    found: &mut Found,
) -> Result<(), NoMemory>
    requires within { function < length functions.now }
    requires few { length scene.now.functions ≤ 65535 }
    requires wide { length found.old.flags.items ≡ length scene.now.functions }
    requires sound { IsFound found.old }
    ensures { IfOk result (λ _. Finds (spelled_in scene.now functions.now function) found.old found.new) }
{
    find_callees_of_all(scene, &functions[function].body, found)
}

/// All that a function leads to, each once, in the order in which a walk comes to it.
fn led_to(
    alloc: Global,
    scene: &Scene,
    functions: &[Function],
    function: usize,
) -> Result<Found, NoMemory>
    requires within { function < length functions.now }
    requires few { length scene.now.functions ≤ 65535 }
    requires count { length scene.now.functions ≡ length functions.now }
    ensures reached { IfOk result (λ found. AreReached (spelled_in scene.now functions.now) function found.numbers.items) }
    ensures within { IfOk result (λ found. AreBelow (length functions.now) found.numbers.items) }
{
    let mut found = nothing(alloc, functions.len())?;
    find_called(scene, functions, function, &mut found)?;
    let mut at: usize = 0;
    'walk: while at < found.numbers.len() {
        let next = found.numbers[at];
        find_called(scene, functions, next as usize, &mut found)?;
        at += 1;
    }
    Ok(found)
}

/// The least place in the body of the function with this number, and what reaches it. The names and the places that were found before are
/// let go.
fn body_bar_at(
    setting: &Setting,
    functions: &[Function],
    function: usize,
    inner: &mut Vec<Known>,
    out: &mut Vec<u32>,
) -> Result<Option<u32>, NoMemory>
    requires within { function < length functions.now }
    ensures { IfOk result (λ place. place ≡ at (map (body_bar (scene_at setting.now) (file_at setting.now)) functions.now) function) }
{
    body_bar(setting, &functions[function], inner, out)
}

/// The least place in the bodies of the functions with these numbers.
#[tactic(auto, using(cw_resolve::proofs::Lesser::sooner_assoc))]
fn least_among(
    setting: &Setting,
    functions: &[Function],
    numbers: &[u16],
    inner: &mut Vec<Known>,
    out: &mut Vec<u32>,
) -> Result<Option<u32>, NoMemory>
    requires within { All (λ number. number < length functions.now) numbers.now }
    ensures { IfOk result (λ place. place ≡ soonest (map (at (map (body_bar (scene_at setting.now) (file_at setting.now)) functions.now)) numbers.now)) }
{
    let mut least = None;
    for number in numbers {
        least = sooner(
            least,
            body_bar_at(setting, functions, *number as usize, inner, out)?,
        );
    }
    Ok(least)
}

/// The least place in the body of a function that reaches these, and in their bodies.
fn least_body(
    alloc: Global,
    setting: &Setting,
    functions: &[Function],
    function: usize,
    reaches: &[u16],
) -> Result<Option<u32>, NoMemory>
    requires own { function < length functions.now }
    requires within { All (λ number. number < length functions.now) reaches.now }
    ensures { IfOk result (λ place. place ≡ sooner (at (map (body_bar (scene_at setting.now) (file_at setting.now)) functions.now) function)
        (soonest (map (at (map (body_bar (scene_at setting.now) (file_at setting.now)) functions.now)) reaches.now))) }
{
    let mut inner = Vec::new(alloc);
    let mut out = Vec::new(alloc);
    let own = body_bar_at(setting, functions, function, &mut inner, &mut out)?;
    let others = least_among(setting, functions, reaches, &mut inner, &mut out)?;
    Ok(sooner(own, others))
}

/// The least place that forbids splitting a function which reaches these.
fn least_place(
    alloc: Global,
    scene: &Scene,
    program: &Program,
    function: usize,
    reaches: &[u16],
) -> Result<Option<u32>, NoMemory>
    requires own { function < length program.now.functions.items }
    requires within { All (λ number. number < length program.now.functions.items) reaches.now }
    ensures { IfOk result (λ place. place ≡ forbidden (map head_bar program.now.functions.items)
        (map (λ f. lowest (body_places scene.now (file_of program.now) (definition_of f))) program.now.functions.items) function reaches.now) }
{
    let file = file_scope(alloc, program)?;
    let setting = Setting { scene, file: &file };
    let body = least_body(alloc, &setting, &program.functions, function, reaches)?;
    Ok(sooner(head_place(&program.functions[function]), body))
}

/// The least place that forbids splitting a function, by a walk over the statements of all that it reaches.
pub(crate) fn bar_alone(
    alloc: Global,
    scene: &Scene,
    program: &Program,
    function: usize,
) -> Result<Option<u32>, NoMemory>
    requires within { function < length program.now.functions.items }
    requires few { length scene.now.functions ≤ 65535 }
    requires count { length scene.now.functions ≡ length program.now.functions.items }
    ensures { IfOk result (λ place. (reaches : List ℕ) × AreReached (spelled_in scene.now program.now.functions.items) function reaches
        × (place ≡ forbidden (map head_bar program.now.functions.items)
        (map (λ f. lowest (body_places scene.now (file_of program.now) (definition_of f))) program.now.functions.items) function reaches)) }
{
    let found = led_to(alloc, scene, &program.functions, function)?;
    least_place(alloc, scene, program, function, &found.numbers)
}
