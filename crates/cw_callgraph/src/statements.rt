//! The places in the body of a function that forbid splitting.

ghost use Rattle.std.specs.Prelude.{◌≡◌, ◌∷◌, [], ◌++◌, map, option_map, IfOk};
ghost use Rattle.cw_syntax.specs.declared.program.Expr.{out-Expr};
ghost use Rattle.cw_syntax.specs.declared.program.Head.{out-Head};
ghost use Rattle.cw_syntax.specs.Plans.{action_of};
ghost use Rattle.cw_syntax.specs.Trees.{tree_of, trees_of, array_of, declared_of, declaration_of, definition_of, statement_of, statements_of, perhaps_of};
ghost use Rattle.cw_callgraph.specs.Scoping.{local};
ghost use Rattle.cw_callgraph.specs.declared.expressions.Role.TheVariants.{Value};
ghost use Rattle.cw_callgraph.specs.Forbidding.{places, places_in, given, size, in_items, declared, locals, is_seam, known_after, known_after_all, known_by_init, init, stated, stated_all};
ghost use Rattle.cw_callgraph.specs.Walking.{scene_at, source_at, file_at, item_places, head_list, evaluated, body_under};

use crate::expressions::{Role, put_if, put_places, put_places_in};
use crate::scopes::{Known, Scope, local_meaning, put_parameters};
use cw_core::NoMemory;
use cw_resolve::{Act, Scene, action_of};
use cw_syntax::program::{Decl, Expr, Function, Head, Item, Name, Op, Stmt, What};

/// A source with the names by which opens and closes are known in it, and the names at its file scope.
#[derive(Clone, Copy, Drop)]
pub(crate) struct Setting<'a> {
    pub scene: &'a Scene<'a>,
    pub file: &'a [Known],
}

/// Appends the places in an expression whose value is taken.
fn put_value(
    setting: &Setting,
    inner: &[Known],
    e: &Expr,
    out: &mut Vec<u32>,
) -> Result<(), NoMemory>
    ensures { IfOk result (λ _. out.new.items ≡ out.old.items ++ places (source_at setting.now) (file_at setting.now) inner.now Value (tree_of e.now)) }
{
    let scope = Scope {
        source: setting.scene.source(),
        file: setting.file,
        inner,
    };
    put_places(&scope, Role::Value, e, out)
}

/// Appends the places in expressions whose values are taken.
fn put_values(
    setting: &Setting,
    inner: &[Known],
    es: &[Expr],
    out: &mut Vec<u32>,
) -> Result<(), NoMemory>
    ensures { IfOk result (λ _. out.new.items ≡ out.old.items ++ places_in (source_at setting.now) (file_at setting.now) inner.now Value (trees_of es.now)) }
{
    let scope = Scope {
        source: setting.scene.source(),
        file: setting.file,
        inner,
    };
    put_places_in(&scope, Role::Value, es, out)
}

/// Appends the places in an expression, if there is one, whose value is taken.
fn put_given(
    setting: &Setting,
    inner: &[Known],
    e: &Option<Expr>,
    out: &mut Vec<u32>,
) -> Result<(), NoMemory>
    ensures { IfOk result (λ _. out.new.items ≡ out.old.items ++ given (source_at setting.now) (file_at setting.now) inner.now (option_map tree_of e.now)) }
{
    match e {
        None => Ok(()),
        Some(e) => put_value(setting, inner, e, out),
    }
}

/// Appends the places in the size of an array, if it has one.
fn put_size(
    setting: &Setting,
    inner: &[Known],
    array: &Option<Option<Expr>>,
    out: &mut Vec<u32>,
) -> Result<(), NoMemory>
    ensures { IfOk result (λ _. out.new.items ≡ out.old.items ++ size (source_at setting.now) (file_at setting.now) inner.now (array_of array.now)) }
{
    match array {
        None => Ok(()),
        Some(e) => put_given(setting, inner, e, out),
    }
}

/// What a name means that is declared in a function: `extern` means what is so called at file scope.
fn local(setting: &Setting, external: bool, item: &Item) -> Known
    ensures { result ≡ local (source_at setting.now) (file_at setting.now) external (declared_of item.now) }
{
    Known {
        name: item.name,
        means: local_meaning(setting.scene.source(), setting.file, external, item.name),
    }
}

/// Appends the places in an item of a declaration, whose name is known from then on.
fn put_item(
    setting: &Setting,
    external: bool,
    item: &Item,
    inner: &mut Vec<Known>,
    out: &mut Vec<u32>,
) -> Result<(), NoMemory>
    ensures places { IfOk result (λ _. out.new.items ≡ out.old.items ++ item_places setting.now inner.old.items external (declared_of item.now)) }
    ensures known { IfOk result (λ _. inner.new.items ≡ inner.old.items ++ local (source_at setting.now) (file_at setting.now) external (declared_of item.now) ∷ []) }
{
    put_size(setting, inner, &item.array, out)?;
    inner.push(local(setting, external, item))?;
    put_values(setting, inner, &item.init, out)
}

/// Appends the places in the names of a declaration; each is known from the end of its declarator on (ISO C11, 6.2.1).
fn put_items(
    setting: &Setting,
    external: bool,
    items: &[Item],
    inner: &mut Vec<Known>,
    out: &mut Vec<u32>,
) -> Result<(), NoMemory>
    ensures places { IfOk result (λ _. out.new.items ≡ out.old.items ++ in_items (source_at setting.now) (file_at setting.now) inner.old.items external (map declared_of items.now)) }
    ensures known { IfOk result (λ _. inner.new.items ≡ inner.old.items ++ map (local (source_at setting.now) (file_at setting.now) external) (map declared_of items.now)) }
{
    for item in items {
        put_item(setting, external, item, inner, out)?;
    }
    Ok(())
}

/// Appends the places in a declaration, whose names are known from then on.
fn put_declaration(
    setting: &Setting,
    declaration: &Decl,
    inner: &mut Vec<Known>,
    out: &mut Vec<u32>,
) -> Result<(), NoMemory>
    ensures places { IfOk result (λ _. out.new.items ≡ out.old.items ++ declared (source_at setting.now) (file_at setting.now) inner.old.items (declaration_of declaration.now)) }
    ensures known { IfOk result (λ _. inner.new.items ≡ inner.old.items ++ locals (source_at setting.now) (file_at setting.now) (declaration_of declaration.now)) }
{
    put_if(declaration.fixed, declaration.from, out)?;
    put_items(
        setting,
        declaration.external,
        &declaration.items,
        inner,
        out,
    )
}

/// Appends the places in the init of a `for`: a declaration or an expression.
fn put_init(
    setting: &Setting,
    start: &Option<Stmt>,
    inner: &mut Vec<Known>,
    out: &mut Vec<u32>,
) -> Result<(), NoMemory>
    ensures places { IfOk result (λ _. out.new.items ≡ out.old.items ++ init (scene_at setting.now) (file_at setting.now) inner.old.items (perhaps_of start.now)) }
    ensures known { IfOk result (λ _. inner.new.items ≡ inner.old.items ++ known_by_init (scene_at setting.now) (file_at setting.now) (perhaps_of start.now)) }
{
    match start {
        None => Ok(()),
        Some(start) => match &start.what {
            What::Decl(declaration) => put_declaration(setting, declaration, inner, out),
            What::Expr(e) => put_value(setting, inner, e, out),
            What::Block(_) | What::Label(_, _, _) | What::If(_, _, _) => Ok(()),
            What::While(_, _) | What::Do(_, _) => Ok(()),
            What::For(_, _) => Ok(()),
            What::Empty | What::Break | What::Continue | What::Return(_) => Ok(()),
        },
    }
}

/// Appends the places between the parentheses of a `for`, whose names are known in its body.
fn put_head(
    setting: &Setting,
    head: &Head,
    inner: &mut Vec<Known>,
    out: &mut Vec<u32>,
) -> Result<(), NoMemory>
    ensures places { IfOk result (λ _. out.new.items ≡ out.old.items ++ head_list setting.now inner.old.items head.now) }
    ensures known { IfOk result (λ _. inner.new.items ≡ inner.old.items ++ known_by_init (scene_at setting.now) (file_at setting.now) (perhaps_of (out-Head head.now).init)) }
{
    put_init(setting, &head.init, inner, out)?;
    put_given(setting, inner, &head.test, out)?;
    put_given(setting, inner, &head.step, out)
}

/// Whether a whole statement of this expression is an open or a close.
fn is_seam_in(setting: &Setting, e: &Expr) -> bool
    ensures { result ≡ is_seam (action_of (scene_at setting.now) (tree_of e.now)) }
{
    match action_of(setting.scene, e) {
        Act::Opens(_) => true,
        Act::Closes(_) => true,
        _ => false,
    }
}

/// Whether the statement of a call of this name is a close: no name is looked up but `close`.
fn is_close_in(setting: &Setting, name: Name, e: &Expr) -> bool
    requires call { (out-Expr e.now).op ≡ Op.Call name }
    ensures { result ≡ is_seam (action_of (scene_at setting.now) (tree_of e.now)) }
{
    setting.scene.text(name) == b"close".as_slice() && is_seam_in(setting, e)
}

/// Whether a whole statement of this expression is an open or a close.
fn is_seam(setting: &Setting, e: &Expr) -> bool
    ensures { result ≡ is_seam (action_of (scene_at setting.now) (tree_of e.now)) }
{
    match e.op {
        Op::Call(name) => is_close_in(setting, name, e),
        _ => is_seam_in(setting, e),
    }
}

/// Appends the places in a statement `e;` that begins here.
fn put_evaluated(
    setting: &Setting,
    inner: &[Known],
    at: u32,
    e: &Expr,
    out: &mut Vec<u32>,
) -> Result<(), NoMemory>
    ensures { IfOk result (λ _. out.new.items ≡ out.old.items ++ evaluated setting.now inner.now at (tree_of e.now)) }
{
    put_if(is_seam(setting, e), at, out)?;
    put_value(setting, inner, e, out)
}

/// Appends the places in a statement. What it declares is known from then on, but for what a block, an `if` or a loop declares inside.
#[cycle(stated)]
fn put_statement(
    setting: &Setting,
    statement: &Stmt,
    inner: &mut Vec<Known>,
    out: &mut Vec<u32>,
) -> Result<(), NoMemory>
    ensures places { IfOk result (λ _. out.new.items ≡ out.old.items ++ stated (scene_at setting.now) (file_at setting.now) inner.old.items (statement_of statement.now)) }
    ensures known { IfOk result (λ _. inner.new.items ≡ inner.old.items ++ known_after (scene_at setting.now) (file_at setting.now) (statement_of statement.now)) }
{
    let depth = inner.len();
    match &statement.what {
        What::Block(statements) => {
            put_statements(setting, statements, inner, out)?;
            inner.truncate(depth);
            Ok(())
        }
        What::Decl(declaration) => put_declaration(setting, declaration, inner, out),
        What::Expr(e) => put_evaluated(setting, inner, statement.from, e, out),
        What::Label(_, _, body) => put_statement(setting, body, inner, out),
        What::If(test, arm, other) => {
            put_value(setting, inner, test, out)?;
            put_statement(setting, arm, inner, out)?;
            inner.truncate(depth);
            match other {
                None => Ok(()),
                Some(other) => {
                    put_statement(setting, other, inner, out)?;
                    inner.truncate(depth);
                    Ok(())
                }
            }
        }
        What::While(test, body) => {
            put_value(setting, inner, test, out)?;
            put_statement(setting, body, inner, out)?;
            inner.truncate(depth);
            Ok(())
        }
        What::Do(body, test) => {
            put_statement(setting, body, inner, out)?;
            inner.truncate(depth);
            put_value(setting, inner, test, out)
        }
        What::For(head, body) => {
            put_head(setting, head, inner, out)?;
            put_statement(setting, body, inner, out)?;
            inner.truncate(depth);
            Ok(())
        }
        What::Return(value) => put_given(setting, inner, value, out),
        What::Empty | What::Break | What::Continue => Ok(()),
    }
}

/// Appends the places in statements that follow one another. What they declare is known from then on.
#[cycle(stated)]
fn put_statements(
    setting: &Setting,
    statements: &[Stmt],
    inner: &mut Vec<Known>,
    out: &mut Vec<u32>,
) -> Result<(), NoMemory>
    ensures places { IfOk result (λ _. out.new.items ≡ out.old.items ++ stated_all (scene_at setting.now) (file_at setting.now) inner.old.items (statements_of statements.now)) }
    ensures known { IfOk result (λ _. inner.new.items ≡ inner.old.items ++ known_after_all (scene_at setting.now) (file_at setting.now) (statements_of statements.now)) }
{
    for statement in statements {
        put_statement(setting, statement, inner, out)?;
    }
    Ok(())
}

/// The places in the body of a function, in the place of those that were found before; so are the names that are known.
pub(crate) fn put_body(
    setting: &Setting,
    function: &Function,
    inner: &mut Vec<Known>,
    out: &mut Vec<u32>,
) -> Result<(), NoMemory>
    ensures { IfOk result (λ _. out.new.items ≡ body_under (scene_at setting.now) (file_at setting.now) (definition_of function.now)) }
{
    inner.clear();
    out.clear();
    put_parameters(&function.params, inner)?;
    put_statements(setting, &function.body, inner, out)
}
