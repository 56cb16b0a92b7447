//! What is told of sources under policies: their forms, or why they have none. A test that lacks memory ends at once.

ghost use Rattle.std.specs.Prelude.{◌≤◌, length};
ghost use Rattle.cw_rights.specs.Policies.{policy_of};
ghost use Rattle.cw_rights.specs.Valid.{IsValid};

use cw_core::limits::SOURCE_BYTES;
use cw_detach::detach;
use cw_policy::read_policy;
use cw_rights::Policy;
use cw_source::read_source;
use std::alloc::Global;
use std::mem::forget;
use std::process::Abort;
use std::slice;

const BEFORE: &[u8] = b"{if(!fork()){";

const BEHIND: &[u8] = b"_exit(0);for(;;);}}";

/// Detaches `f`.
pub(crate) const F: &str = "format = 2\ndetached = [\"f\"]\n";

/// The bytes of a text in which `@` stands for what is before a call that isn't waited for, and `$` for what is behind it.
fn spelled(rt: &impl Abort, alloc: Global, text: &str) -> Vec<u8> {
    let mut out = Vec::new(alloc);
    for byte in text.as_bytes() {
        let piece = match *byte {
            b'@' => BEFORE,
            b'$' => BEHIND,
            _ => slice::from_ref(byte),
        };
        out.extend_from_slice(piece).expect(rt, "memory");
    }
    out
}

/// The form of a source under a policy that is read, or why there is none.
fn under(rt: &impl Abort, alloc: Global, policy: &Policy, source: &[u8]) -> Vec<u8>
    requires valid { IsValid (policy_of policy.now) }
    requires short { length source.now ≤ SOURCE_BYTES }
{
    let Ok(checked) = read_source(alloc, source) else {
        panic!(rt; "a source that isn't read");
    };
    let answer = detach(alloc, &checked, policy);
    forget(checked);
    match answer {
        Ok(form) => form,
        Err(fault) => {
            let text = format!(in alloc; "{fault}").expect(rt, "memory");
            text.into_bytes()
        }
    }
}

/// The form of a source, or why there is none.
pub(crate) fn told(rt: &impl Abort, alloc: Global, policy: &str, source: &[u8]) -> Vec<u8> {
    assert!(rt; source.len() <= 262144, "a source that is too long");
    let Ok(policy) = read_policy(alloc, policy.as_bytes()) else {
        panic!(rt; "a policy that isn't read");
    };
    let told = under(rt, alloc, &policy, source);
    forget(policy);
    told
}

/// Asserts the form of a source, or why it has none.
pub(crate) fn tells(rt: &impl Abort, alloc: Global, policy: &str, source: &str, wanted: &str) {
    let told = told(rt, alloc, policy, source.as_bytes());
    let wanted = spelled(rt, alloc, wanted);
    assert!(rt; told.as_slice() == wanted.as_slice(), "{source}");
}

/// Asserts the form of each source under a policy, or why it has none.
pub(crate) fn all_told(rt: &impl Abort, alloc: Global, policy: &str, rows: &[(&str, &str)]) {
    for (source, wanted) in rows {
        tells(rt, alloc, policy, source, wanted);
    }
}

/// Asserts that a form is that of a source.
fn is_read(rt: &impl Abort, alloc: Global, form: &str) {
    let form = spelled(rt, alloc, form);
    assert!(rt; form.len() <= 262144);
    assert!(rt; read_source(alloc, &form).is_ok());
}

/// A text within a file: behind an empty `f`, in `main` before its return.
fn within(rt: &impl Abort, alloc: Global, inner: &str) -> String {
    format!(in alloc; "void f(int x){{}}int main(void){{{inner}return 0;}}").expect(rt, "memory")
}

/// Asserts the form of each text within a file. It is read again.
pub(crate) fn all_formed(rt: &impl Abort, alloc: Global, rows: &[(&str, &str)]) {
    for (inner, wanted) in rows {
        let wanted = within(rt, alloc, wanted);
        tells(rt, alloc, F, &within(rt, alloc, inner), &wanted);
        is_read(rt, alloc, &wanted);
    }
}
