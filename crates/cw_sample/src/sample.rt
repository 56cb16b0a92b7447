//! The policy and the source of a sample.

ghost use Rattle.std.specs.Prelude.{◌≡◌, ◌≤◌, ◌++◌, length, OnOk, IfOk, IfErr};
ghost use Rattle.cw_sample.specs.Samples.{sample_policy, prototype, next, definition, prototypes, definitions, main_line, sample_source, HasSample, IsSampleFault};
ghost use Rattle.cw_sample.specs.declared.sample.SampleFault.TheVariants as sample;

use cw_core::limits::SOURCE_BYTES;
use cw_core::{NoMemory, put_dec};
use std::alloc::Global;
use thiserror::Error;

/// Why there is no sample.
#[derive(Clone, Copy, Drop, Debug, PartialEq, Eq, Error)]
pub enum SampleFault {
    /// The number isn't 1 to 400.
    #[error("out of range")]
    OutOfRange,
    /// There was no memory.
    #[error("out of memory")]
    NoMemory,
}

impl From<NoMemory> for SampleFault {
    ghost from_gives = { λ _ fault. fault ≡ sample.NoMemory };

    fn from(_refused: NoMemory) -> SampleFault {
        SampleFault::NoMemory
    }
}

/// Appends a text.
fn put(piece: &[u8], text: &mut Vec<u8>) -> Result<(), NoMemory>
    ensures { OnOk result (text.new.items ≡ text.old.items ++ piece.now) }
{
    text.extend_from_slice(piece)?;
    Ok(())
}

/// Appends the line of a function's prototype.
fn put_prototype(i: u32, text: &mut Vec<u8>) -> Result<(), NoMemory>
    ensures { OnOk result (text.new.items ≡ text.old.items ++ prototype i) }
{
    put(b"void f", text)?;
    put_dec(u64::from(i), text)?;
    put(b"(int x);\n", text)
}

/// The function that a function calls: the next one, behind the last one the first.
fn next(n: u32, i: u32) -> u32
    ensures { result ≡ next n i }
{
    if i < n { i + 1 } else { 1 }
}

/// Appends the line of a function.
fn put_definition(n: u32, i: u32, text: &mut Vec<u8>) -> Result<(), NoMemory>
    ensures { OnOk result (text.new.items ≡ text.old.items ++ definition n i) }
{
    put(b"void f", text)?;
    put_dec(u64::from(i), text)?;
    put(b"(int x){if(x){w:;f", text)?;
    put_dec(u64::from(next(n, i)), text)?;
    put(b"(x);}}\n", text)
}

/// Appends the prototypes of `n` functions.
fn put_prototypes(n: u32, text: &mut Vec<u8>) -> Result<(), NoMemory>
    ensures { OnOk result (text.new.items ≡ text.old.items ++ prototypes n) }
{
    for i in 0..n {
        put_prototype(i + 1, text)?;
    }
    Ok(())
}

/// Appends the definitions of `n` functions.
fn put_definitions(n: u32, text: &mut Vec<u8>) -> Result<(), NoMemory>
    ensures { OnOk result (text.new.items ≡ text.old.items ++ definitions n n) }
{
    for i in 0..n {
        put_definition(n, i + 1, text)?;
    }
    Ok(())
}

/// The sample's policy.
fn policy_text(alloc: Global) -> Result<Vec<u8>, NoMemory>
    ensures { IfOk result (λ text. text.items ≡ sample_policy) }
{
    let mut text = Vec::new(alloc);
    put(
        b"format = 1\nsplit = [\"f1\"]\n[[at]]\nlabel = \"w\"\nnever = [\"amb\"]\n[[at]]\nlabel = \"done\"\nmust = [\"amb\"]\n",
        &mut text,
    )?;
    Ok(text)
}

/// The sample's source, of `n` functions beside `main`.
fn source_text(alloc: Global, n: u32) -> Result<Vec<u8>, NoMemory>
    ensures { IfOk result (λ text. text.items ≡ sample_source n) }
{
    let mut text = Vec::new(alloc);
    put_prototypes(n, &mut text)?;
    put_definitions(n, &mut text)?;
    put(b"int main(void){f1(9);done:;return 0;}\n", &mut text)?;
    Ok(text)
}

/// The policy and the source of a number from 1 to 400: functions `f1` to `fN`, each of which calls the next one and the last one the
/// first, and a `main` that calls `f1`, under a policy that splits `f1`. The source has at most 262,144 bytes, as one that is read from a file.
pub fn make_sample(alloc: Global, n: u32) -> Result<(Vec<u8>, Vec<u8>), SampleFault>
    ensures policy { IfOk result (λ texts. texts.0.items ≡ sample_policy) }
    ensures source { IfOk result (λ texts. texts.1.items ≡ sample_source n) }
    ensures short { IfOk result (λ texts. length texts.1.items ≤ SOURCE_BYTES) }
    ensures range { IfOk result (λ _. HasSample n) }
    ensures fault { IfErr result (IsSampleFault n) }
{
    if n == 0 || n > 400 {
        return Err(SampleFault::OutOfRange);
    }
    let policy = policy_text(alloc)?;
    let source = source_text(alloc, n)?;
    Ok((policy, source))
}
