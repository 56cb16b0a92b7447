//! What a statement does that is an expression.

ghost use Rattle.std.specs.Prelude.{◌≡◌, ℕ, codes};
ghost use Rattle.std.specs.Str.{bytes_eq};
ghost use Rattle.cw_syntax.specs.Plans.{action_of, call_action, closed_by, closes_if, opens_if, assigned_action, descriptor_of};
ghost use Rattle.cw_syntax.specs.Trees.{Node, none, more, tree_of, trees_of};
ghost use Rattle.cw_syntax.specs.Names.{number_in};
ghost use Rattle.cw_resolve.specs.Acts.{act_of};

use crate::scene::Scene;
use cw_syntax::program::{Expr, Name, Op};

/// What an expression statement does: an open or a close of a descriptor of the policy, the call of a defined
/// function (with whether the policy lets it be split off, and the variable that takes its result), or none of these.
#[derive(Clone, Copy, Drop)]
pub enum Act {
    Computes,
    Opens(usize),
    Closes(usize),
    Invokes {
        function: usize,
        split: bool,
        result: Option<Name>,
    },
}

/// The number of the descriptor that an expression names: a variable by its name, a number by its value.
pub fn descriptor_of(scene: &Scene, e: &Expr) -> Option<usize>
    ensures number { result ≡ descriptor_of scene.now (tree_of e.now) }
{
    match e.op {
        Op::Name => scene.descriptor_named(scene.slice(e.from, e.to)),
        Op::Number(n) => scene.descriptor_numbered(n),
        _ => None,
    }
}

/// A close of the descriptor with this number, and a plain computation where the policy has none of that name.
fn closes_if(descriptor: Option<usize>) -> Act
    ensures { result ≡ act_of (closes_if descriptor) }
{
    match descriptor {
        None => Act::Computes,
        Some(d) => Act::Closes(d),
    }
}

/// An open of the descriptor with this number, and a plain computation where the policy has none of that name.
fn opens_if(descriptor: Option<usize>) -> Act
    ensures { result ≡ act_of (opens_if descriptor) }
{
    match descriptor {
        None => Act::Computes,
        Some(d) => Act::Opens(d),
    }
}

/// Whether a name is `close`.
fn is_close(name: &[u8]) -> bool
    ensures { result ≡ bytes_eq name.now (codes "close") }
{
    name == b"close".as_slice()
}

/// `close(d);`, with `close` external.
fn closed_by(scene: &Scene, name: &[u8], arguments: &[Expr]) -> Act
    ensures { result ≡ act_of (closed_by scene.now name.now (trees_of arguments.now)) }
{
    match arguments {
        [argument] if is_close(name) => closes_if(descriptor_of(scene, argument)),
        _ => Act::Computes,
    }
}

/// `f(..);`
fn call_action(scene: &Scene, name: &[u8], arguments: &[Expr]) -> Act
    ensures { result ≡ act_of (call_action scene.now name.now (trees_of arguments.now) (number_in scene.now.functions name.now)) }
{
    match scene.function_named(name) {
        Some(function) => Act::Invokes {
            function,
            split: scene.is_split(name),
            result: None,
        },
        None => closed_by(scene, name, arguments),
    }
}

/// `x = f(..);`
fn assigned_action(scene: &Scene, x: Name, name: &[u8]) -> Act
    ensures { result ≡ act_of (assigned_action scene.now x name.now (number_in scene.now.functions name.now)) }
{
    match scene.function_named(name) {
        Some(function) => Act::Invokes {
            function,
            split: scene.is_split(name),
            result: Some(x),
        },
        None => opens_if(scene.descriptor_named(scene.text(x))),
    }
}

/// An assignment of these two parts.
fn assigned(scene: &Scene, x: &Expr, value: &Expr) -> Act
    ensures { (from to : ℕ) → result ≡ act_of (action_of scene.now (Node (Op.Assign 0) (more (tree_of x.now) (more (tree_of value.now) none)) from to)) }
{
    match x.op {
        Op::Name => match value.op {
            Op::Call(f) => {
                let name = Name {
                    from: x.from,
                    to: x.to,
                };
                assigned_action(scene, name, scene.text(f))
            }
            _ => Act::Computes,
        },
        _ => Act::Computes,
    }
}

/// An assignment by an operator of this number: 0 is `=`.
fn assignment(scene: &Scene, by: u8, parts: &[Expr]) -> Act
    ensures { (from to : ℕ) → result ≡ act_of (action_of scene.now (Node (Op.Assign by) (trees_of parts.now) from to)) }
{
    if by != 0 {
        return Act::Computes;
    }
    match parts {
        [x, value] => assigned(scene, x, value),
        _ => Act::Computes,
    }
}

/// What an expression statement does.
pub fn action_of(scene: &Scene, e: &Expr) -> Act
    ensures act { result ≡ act_of (action_of scene.now (tree_of e.now)) }
{
    match e.op {
        Op::Call(f) => call_action(scene, scene.text(f), &e.parts),
        Op::Assign(by) => assignment(scene, by, &e.parts),
        _ => Act::Computes,
    }
}
