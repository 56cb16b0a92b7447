//! What each function calls, what it reaches, and what forbids splitting it.

ghost use Rattle.std.specs.Prelude.{◌≡◌, ◌<◌, ◌≤◌, ◌↔◌, ℕ, List, length, IfOk};
ghost use Rattle.std.specs.List.{All, Contains};
ghost use Rattle.std.specs.List.Sorted.{IsStrictlyIncreasing};
ghost use Rattle.cw_rights.specs.Policies.{policy_of};
ghost use Rattle.cw_resolve.specs.Own.{IsSceneOf};
ghost use Rattle.cw_resolve.specs.Scenes.{names_of, plan_in, scene_in};
ghost use Rattle.cw_callgraph.specs.Effects.{calls, Reaches, Each};
ghost use Rattle.cw_callgraph.specs.Tabled.{AreEffectsOf};
ghost use Rattle.cw_callgraph.specs.Forbidding.{Forbids, IsLeast};
ghost use Rattle.cw_callgraph.specs.Lowest.{forbidden};
ghost use Rattle.cw_syntax.specs.Plans.{plan_of};
ghost use Rattle.cw_syntax.specs.Trees.{file_of};
ghost use Rattle.cw_callgraph.specs.Finding.{AreBelow, lists_of, next_in, AreReached, IsReach, AreEffects};
ghost use Rattle.cw_callgraph.specs.Parts.{ArePartsOf};

use crate::bars::{Bars, all_bars};
use crate::callees::all_calls;
use crate::lowest::soonest_among;
use crate::reach::{Calls, reach, walked};
use cw_core::NoMemory;
use cw_resolve::{Scene, sooner};
use cw_rights::Policy;
use cw_syntax::checked::Checked;
use cw_syntax::program::Program;
use std::alloc::Global;

/// What a function calls directly, each function once, in the order of its first call in the text; all functions that it
/// reaches, ascending; and the least place, in bytes of the source, that forbids splitting it, where there is one.
#[derive(Drop)]
pub struct Effect {
    pub calls: Vec<u16>,
    pub reaches: Vec<u16>,
    pub forbids: Option<u32>,
}

/// The effects of functions, by their numbers.
#[derive(Drop)]
pub struct EffectTable {
    pub of: Vec<Effect>,
}

/// What the effects of a program's functions are found out from: what each calls, and what forbids splitting each by itself.
#[derive(Drop)]
pub(crate) struct Parts {
    pub calls: Calls,
    pub bars: Bars,
}

/// What each function calls, and what forbids splitting each by itself, in the scene of a source under a policy.
pub(crate) fn parts_in(
    alloc: Global,
    scene: &Scene,
    checked: &Checked,
    policy: &Policy,
) -> Result<Parts, NoMemory>
    requires scene { scene.now ≡ scene_in checked.now (policy_of policy.now) }
    requires few { length checked.now.program.functions.items ≤ 65535 }
    ensures { IfOk result (λ parts. ArePartsOf checked.now (policy_of policy.now) parts) }
{
    let _ = policy;
    let rows = all_calls(alloc, scene, &checked.program)?;
    let bars = all_bars(alloc, scene, &checked.program)?;
    Ok(Parts {
        calls: Calls { rows },
        bars,
    })
}

/// The same, in a scene that is made for it.
fn parts_of(alloc: Global, checked: &Checked, policy: &Policy) -> Result<Parts, NoMemory>
    requires few { length checked.now.program.functions.items ≤ 65535 }
    ensures { IfOk result (λ parts. ArePartsOf checked.now (policy_of policy.now) parts) }
{
    let scene = Scene::under(alloc, checked, policy)?;
    parts_in(alloc, &scene, checked, policy)
}

/// A copy of a list of numbers.
fn copied(alloc: Global, numbers: &[u16]) -> Result<Vec<u16>, NoMemory>
    ensures { IfOk result (λ copy. copy.items ≡ numbers.now) }
{
    let mut copy = Vec::new(alloc);
    copy.extend_from_slice(numbers)?;
    Ok(copy)
}

/// The least place that forbids splitting a function which reaches these.
fn least_place(bars: &Bars, function: usize, reaches: &[u16]) -> Option<u32>
    requires head { function < length bars.now.heads.items }
    requires body { function < length bars.now.bodies.items }
    requires within { All (λ g. g < length bars.now.bodies.items) reaches.now }
    ensures { result ≡ forbidden bars.now.heads.items bars.now.bodies.items function reaches.now }
{
    let body = sooner(bars.bodies[function], soonest_among(&bars.bodies, reaches));
    sooner(bars.heads[function], body)
}

/// The least place that forbids splitting a function, by what each function calls and what forbids each by itself.
pub(crate) fn bar_of(
    alloc: Global,
    table: &Calls,
    bars: &Bars,
    function: usize,
) -> Result<Option<u32>, NoMemory>
    requires within { function < length table.now.rows.items }
    requires below { All (AreBelow (length table.now.rows.items)) (lists_of table.now.rows.items) }
    requires heads { length bars.now.heads.items ≡ length table.now.rows.items }
    requires bodies { length bars.now.bodies.items ≡ length table.now.rows.items }
    ensures { IfOk result (λ place. (reaches : List ℕ) × AreReached (next_in table.now.rows.items) function reaches
        × (place ≡ forbidden bars.now.heads.items bars.now.bodies.items function reaches)) }
{
    let found = walked(alloc, table, function)?;
    Ok(least_place(bars, function, &found.numbers))
}

/// The effect of one function, by what each function calls and what forbids each by itself.
fn effect_of(alloc: Global, table: &Calls, bars: &Bars, function: usize) -> Result<Effect, NoMemory>
    requires within { function < length table.now.rows.items }
    requires below { All (AreBelow (length table.now.rows.items)) (lists_of table.now.rows.items) }
    requires heads { length bars.now.heads.items ≡ length table.now.rows.items }
    requires bodies { length bars.now.bodies.items ≡ length table.now.rows.items }
    ensures calls { IfOk result (λ effect. effect.calls.items ≡ next_in table.now.rows.items function) }
    ensures reaches { IfOk result (λ effect. IsReach (next_in table.now.rows.items) function effect.reaches.items) }
    ensures forbids { IfOk result (λ effect. effect.forbids ≡ forbidden bars.now.heads.items bars.now.bodies.items function effect.reaches.items) }
{
    let reaches = reach(alloc, table, function)?;
    let calls = copied(alloc, &table.rows[function])?;
    let forbids = least_place(bars, function, &reaches);
    Ok(Effect {
        calls,
        reaches,
        forbids,
    })
}

/// The effects of all functions, by what each function calls and what forbids each by itself.
fn effects_of(alloc: Global, table: &Calls, bars: &Bars) -> Result<Vec<Effect>, NoMemory>
    requires below { All (AreBelow (length table.now.rows.items)) (lists_of table.now.rows.items) }
    requires heads { length bars.now.heads.items ≡ length table.now.rows.items }
    requires bodies { length bars.now.bodies.items ≡ length table.now.rows.items }
    ensures { IfOk result (λ effects. AreEffects table.now.rows.items bars.now.heads.items bars.now.bodies.items (length table.now.rows.items) effects.items) }
{
    let mut effects = Vec::new(alloc);
    for function in 0..table.rows.len() {
        effects.push(effect_of(alloc, table, bars, function)?)?;
    }
    Ok(effects)
}

/// What each function of a program calls and reaches, and what forbids splitting it. There is an entry for each function; it lists what
/// the function calls, each function once, in the order of its first call in the text; what it reaches ascends, and is all that it
/// calls, that what it calls calls, and so on; the least place, in bytes of the source, that forbids running its calls in a process of
/// their own, or none where the policy may let it be split.
pub fn effects(alloc: Global, checked: &Checked, policy: &Policy) -> Result<EffectTable, NoMemory>
    requires few { length checked.now.program.functions.items ≤ 65535 }
    ensures count { IfOk result (λ table. length table.of.items ≡ length checked.now.program.functions.items) }
    ensures calls { IfOk result (λ table. Each (λ f effect. effect.calls.items ≡ calls (plan_in checked.now (policy_of policy.now)) f) table.of.items) }
    ensures ascending { IfOk result (λ table. Each (λ f effect. IsStrictlyIncreasing effect.reaches.items) table.of.items) }
    ensures reaches { IfOk result (λ table. Each (λ f effect. (g : ℕ) → Contains effect.reaches.items g ↔ Reaches (plan_in checked.now (policy_of policy.now)) f g) table.of.items) }
    ensures forbids { IfOk result (λ table. Each (λ f effect. IsLeast (Forbids (names_of (policy_of policy.now)) checked.now.source.now (file_of checked.now.program) f) effect.forbids) table.of.items) }
    ensures told { IfOk result (λ table. AreEffectsOf checked.now (policy_of policy.now) table.of.items) }
{
    let parts = parts_of(alloc, checked, policy)?;
    Ok(EffectTable {
        of: effects_of(alloc, &parts.calls, &parts.bars)?,
    })
}

/// What each function of a program calls in a scene of it: an entry for each function, which lists what the function calls, each function
/// once, in the order of its first call in the text.
pub fn calls_in(alloc: Global, scene: &Scene, program: &Program) -> Result<Vec<Vec<u16>>, NoMemory>
    requires scene { IsSceneOf scene.now (file_of program.now) }
    requires few { length program.now.functions.items ≤ 65535 }
    ensures count { IfOk result (λ rows. length rows.items ≡ length program.now.functions.items) }
    ensures calls { IfOk result (λ rows. Each (λ f row. row.items ≡ calls (plan_of scene.now.names scene.now.source (file_of program.now)) f) rows.items) }
{
    let rows = all_calls(alloc, scene, program)?;
    Ok(rows)
}

/// What each function of a program calls, as in its effects, without the rest of them: an entry for each function, which lists what the
/// function calls, each function once, in the order of its first call in the text.
pub fn call_table(
    alloc: Global,
    checked: &Checked,
    policy: &Policy,
) -> Result<Vec<Vec<u16>>, NoMemory>
    requires few { length checked.now.program.functions.items ≤ 65535 }
    ensures count { IfOk result (λ rows. length rows.items ≡ length checked.now.program.functions.items) }
    ensures calls { IfOk result (λ rows. Each (λ f row. row.items ≡ calls (plan_in checked.now (policy_of policy.now)) f) rows.items) }
{
    let scene = Scene::under(alloc, checked, policy)?;
    calls_in(alloc, &scene, &checked.program)
}
