//! The text of a form.

ghost use Rattle.std.specs.Prelude.{◌≡◌, ◌++◌, drop, IfOk};
ghost use Rattle.cw_syntax.specs.Names.{slice};
ghost use Rattle.cw_detach.specs.Form.{before, behind, form_from};

use crate::spans::Span;
use cw_core::NoMemory;
use cw_syntax::names::slice;
use std::alloc::Global;

/// What stands before a call that isn't waited for.
#[tactic(auto, unfolding(crate::specs::Form::before))]
fn before() -> &'static [u8]
    ensures { result.now ≡ before }
{
    b"{if(!fork()){"
}

/// What stands behind it: the child goes no further.
#[tactic(auto, unfolding(crate::specs::Form::behind))]
fn behind() -> &'static [u8]
    ensures { result.now ≡ behind }
{
    b"_exit(0);for(;;);}}"
}

/// Appends the source from a place on up to the end of a span, which stands between the two texts.
fn put_span(source: &[u8], at: u32, span: Span, form: &mut Vec<u8>) -> Result<(), NoMemory>
    ensures { IfOk result (λ _. form.new.items ≡ form.old.items ++ (slice source.now at span.from ++ (before ++ (slice source.now span.from span.to ++ behind)))) }
{
    form.extend_from_slice(slice(source, at, span.from))?;
    form.extend_from_slice(before())?;
    form.extend_from_slice(slice(source, span.from, span.to))?;
    form.extend_from_slice(behind())?;
    Ok(())
}

/// The source from a place on.
fn rest(source: &[u8], at: u32) -> &[u8]
    ensures { result.now ≡ drop at source.now }
{
    &source[source.len().min(at as usize)..]
}

/// The source with each of these spans between the two texts.
pub(crate) fn form_of(alloc: Global, source: &[u8], spans: &[Span]) -> Result<Vec<u8>, NoMemory>
    ensures { IfOk result (λ form. form.items ≡ form_from source.now 0 spans.now) }
{
    let mut form = Vec::new(alloc);
    let mut at = 0;
    for span in spans {
        put_span(source, at, *span, &mut form)?;
        at = span.to;
    }
    form.extend_from_slice(rest(source, at))?;
    Ok(form)
}
