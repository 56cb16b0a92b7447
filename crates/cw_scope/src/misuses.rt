//! The uses of descriptors that are neither opens nor closes.

ghost use Rattle.std.specs.Prelude.{◌≡◌, ◌++◌, ◌&&◌, map, IfOk, codes};
ghost use Rattle.std.specs.List.{flat_map};
ghost use Rattle.std.specs.Str.{bytes_eq};
ghost use Rattle.cw_syntax.specs.Plans.{action_of};
ghost use Rattle.cw_syntax.specs.Trees.{tree_of, trees_of};
ghost use Rattle.cw_rights.specs.Policies.{policy_of};
ghost use Rattle.cw_resolve.specs.Scenes.{scene_in};
ghost use Rattle.cw_resolve.specs.Soonest.{soonest};
ghost use Rattle.cw_scope.specs.Descriptors.{names_variable, first_is_variable, names_some, is_change, misuse, is_own, used};
ghost use Rattle.cw_scope.specs.Held.{tree_at, whole_of};

use crate::rules::at_if;
use crate::walks::{Whole, put_nodes, put_parts};
use cw_resolve::{Act, Scene, action_of, descriptor_of, sooner};
use cw_rights::Policy;
use cw_syntax::checked::Checked;
use cw_syntax::program::{Expr, Op};
use std::alloc::{AllocError, Global};

/// The name of close(2).
fn close_text() -> &'static [u8]
    ensures { result.now ≡ codes "close" }
{
    b"close"
}

/// Whether an expression is a descriptor's variable.
fn names_variable(scene: &Scene, e: &Expr) -> bool
    ensures { result ≡ names_variable scene.now (tree_of e.now) }
{
    match e.op {
        Op::Name => scene.descriptor_named(scene.slice(e.from, e.to)).is_some(),
        _ => false,
    }
}

/// Whether a whole statement of this expression is an open or a close.
fn is_own(scene: &Scene, e: &Expr) -> bool
    ensures { result ≡ is_own (action_of scene.now (tree_of e.now)) }
{
    match action_of(scene, e) {
        Act::Opens(_) => true,
        Act::Closes(_) => true,
        _ => false,
    }
}

/// Whether the first part is the variable of a descriptor.
fn first_is_variable(scene: &Scene, parts: &[Expr]) -> bool
    ensures { result ≡ first_is_variable scene.now (trees_of parts.now) }
{
    match parts {
        [] => false,
        [first, ..] => names_variable(scene, first),
    }
}

/// Whether `&`, `++` or `--`, by its number, stands before a descriptor's variable.
fn changes_variable(scene: &Scene, n: u8, parts: &[Expr]) -> bool
    ensures { result ≡ (is_change n && first_is_variable scene.now (trees_of parts.now)) }
{
    n >= 5 && n <= 7 && first_is_variable(scene, parts)
}

/// Whether a part names a descriptor.
fn names_some(scene: &Scene, parts: &[Expr]) -> bool
    ensures { result ≡ names_some scene.now (trees_of parts.now) }
{
    for e in parts {
        if descriptor_of(scene, e).is_some() {
            return true;
        }
    }
    false
}

/// Whether a call is one of `close` with a descriptor among its arguments.
fn is_close_of_some(scene: &Scene, name: &[u8], arguments: &[Expr]) -> bool
    ensures { result ≡ (bytes_eq name.now (codes "close") && names_some scene.now (trees_of arguments.now)) }
{
    name == close_text() && names_some(scene, arguments)
}

/// The place of an expression that assigns, changes, closes or takes the address of a descriptor.
fn misuse(scene: &Scene, e: &Expr) -> Option<u32>
    ensures { result ≡ misuse scene.now (tree_of e.now) }
{
    match e.op {
        Op::Assign(_) => at_if(first_is_variable(scene, &e.parts), e.from),
        Op::Prefix(n) => at_if(changes_variable(scene, n, &e.parts), e.from),
        Op::Suffix(_) => at_if(first_is_variable(scene, &e.parts), e.from),
        Op::Call(f) => at_if(is_close_of_some(scene, scene.text(f), &e.parts), e.from),
        _ => None,
    }
}

/// Appends the expressions in which a whole expression uses descriptors: all, but for a statement that is an open or a close itself.
fn put_used<'p>(scene: &Scene, whole: Whole<'p>, out: &mut Vec<&'p Expr>) -> Result<(), AllocError>
    ensures { IfOk result (λ _. map tree_at out.new.items ≡ map tree_at out.old.items ++ used scene.now (whole_of whole.entry)) }
{
    if whole.stands && is_own(scene, whole.tree) {
        put_parts(&whole.tree.parts, out)?;
    } else {
        put_nodes(whole.tree, out)?;
    }
    Ok(())
}

/// Appends the parts of some expressions in which a descriptor may not stand.
fn put_all_used<'p>(
    scene: &Scene,
    wholes: &[Whole<'p>],
    out: &mut Vec<&'p Expr>,
) -> Result<(), AllocError>
    ensures { IfOk result (λ _. map tree_at out.new.items ≡ map tree_at out.old.items ++ flat_map (used scene.now) (map whole_of wholes.now)) }
{
    for whole in wholes {
        put_used(scene, *whole, out)?;
    }
    Ok(())
}

/// The soonest place of a misuse among these expressions.
#[tactic(auto, using(cw_resolve::proofs::Lesser::sooner_assoc))]
fn misuses(scene: &Scene, nodes: &[&Expr]) -> Option<u32>
    ensures { result ≡ soonest (map (misuse scene.now) (map tree_at nodes.now)) }
{
    let mut place = None;
    for e in nodes {
        place = sooner(place, misuse(scene, e));
    }
    place
}

/// The soonest place of a misuse among these whole expressions.
fn least_misuse(alloc: Global, scene: &Scene, wholes: &[Whole]) -> Result<Option<u32>, AllocError>
    ensures { IfOk result (λ place. place ≡ soonest (map (misuse scene.now) (flat_map (used scene.now) (map whole_of wholes.now)))) }
{
    let mut all = Vec::new(alloc);
    put_all_used(scene, wholes, &mut all)?;
    Ok(misuses(scene, &all))
}

/// The soonest place of a misuse among these whole expressions of a source, under the names of a policy.
pub(crate) fn least_misuse_under(
    alloc: Global,
    checked: &Checked,
    policy: &Policy,
    wholes: &[Whole],
) -> Result<Option<u32>, AllocError>
    ensures { let scene = scene_in checked.now (policy_of policy.now) in
        IfOk result (λ place. place ≡ soonest (map (misuse scene) (flat_map (used scene) (map whole_of wholes.now)))) }
{
    let scene = Scene::under(alloc, checked, policy)?;
    least_misuse(alloc, &scene, wholes)
}
