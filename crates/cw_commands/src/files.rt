//! The files of a command, read in the order of its arguments.

ghost use Rattle.std.specs.Prelude.{◌≡◌, ◌≢◌, ◌⊎◌, ◌≤◌, ◌<◌, ℕ, List, [], IfErr, IfOk, Option, true, false, length, map};
ghost use Rattle.cw_core.specs.Quantities.{limit_in};
ghost use Rattle.cw_io.specs.Files.{FilesByName};
ghost use Rattle.cw_commands.specs.Files.{first, HasBytes, HaveBytes, IsFileFault, IsOfFormatTwo, IsOver, IsReadFault, IsUnread, IsWithin};

use crate::ending::Ending;
use cw_core::{NoMemory, Quantity};
use cw_io::{ReadFault, Shelf, Sink};
use cw_policy::{PolicyFault, read_policy};
use std::alloc::Global;

/// Whether a fault is want of memory.
fn is_memory(fault: &PolicyFault) -> bool
    ensures memory { result ≡ true → fault.now ≡ PolicyFault.NoMemory }
    ensures other { result ≡ false → fault.now ≢ PolicyFault.NoMemory }
{
    match fault {
        PolicyFault::NoMemory => true,
        PolicyFault::Toml
        | PolicyFault::Missing(_)
        | PolicyFault::Unknown(_)
        | PolicyFault::Kind(_)
        | PolicyFault::Twice(_)
        | PolicyFault::Regex(_, _)
        | PolicyFault::Limit(_) => false,
    }
}

/// Whether a text spells a policy of format 2.
fn is_of_format_two(alloc: Global, policy: &[u8]) -> Result<bool, NoMemory>
    ensures two { IfOk result (λ answer. answer ≡ true → IsOfFormatTwo policy.now) }
    ensures other { IfOk result (λ answer. answer ≡ false → IsOfFormatTwo policy.now → ⊥) }
{
    match read_policy(alloc, policy) {
        Ok(whole) => Ok(whole.format == 2),
        Err(fault) => {
            if is_memory(&fault) {
                Err(NoMemory)
            } else {
                Ok(false)
            }
        }
    }
}

/// Whether so many bytes of a quantity are more than a policy allows, where they are within the limit of format 2.
fn is_over(alloc: Global, policy: &[u8], quantity: Quantity, count: usize) -> Result<bool, NoMemory>
    requires { count ≤ limit_in 2 quantity }
    ensures over { IfOk result (λ answer. answer ≡ true → IsOver policy.now quantity count) }
    ensures within { IfOk result (λ answer. answer ≡ false → IsWithin policy.now quantity count) }
{
    if count as u64 <= quantity.limit() {
        Ok(false)
    } else {
        Ok(!is_of_format_two(alloc, policy)?)
    }
}

/// The bytes of one file, read behind the policy of these bytes.
fn read_file<F: Shelf>(
    alloc: Global,
    policy: &[u8],
    quantity: Quantity,
    name: &str,
    shelf: &mut F,
) -> Result<Vec<u8>, ReadFault>
    ensures same { F.files shelf.new ≡ F.files shelf.old }
    ensures later { (other : List ℕ) → F.faults shelf.old other ≤ F.faults shelf.new other }
    ensures read { IfOk result (λ bytes. HasBytes (F.files shelf.old) policy.now quantity name.now bytes.items) }
    ensures unread { IfErr result (λ fault. IsReadFault (F.files shelf.old) (F.faults shelf.old) (F.faults shelf.new) policy.now quantity name.now fault) }
{
    match shelf.read(alloc, name, quantity.limit_in(2) as usize) {
        Ok(bytes) => match is_over(alloc, policy, quantity, bytes.len()) {
            Ok(false) => Ok(bytes),
            Ok(true) => Err(ReadFault::TooLong),
            Err(NoMemory) => Err(ReadFault::NoMemory),
        },
        Err(ReadFault::Failed) => Err(ReadFault::Failed),
        Err(ReadFault::TooLong) => Err(ReadFault::TooLong),
        Err(ReadFault::NoMemory) => Err(ReadFault::NoMemory),
    }
}

/// How a command ends that doesn't get the file of this name. An ending has room for a whole line, so the function stands apart: a file
/// that is read makes none.
#[cold]
#[inline(never)]
fn without<'w, N: Sink>(fault: ReadFault, quantity: Quantity, name: &'w str) -> Ending<'w, N>
    ensures { (files : Option FilesByName) (counts counts' : List ℕ → ℕ) (policy : List ℕ) → IsReadFault files counts counts' policy quantity name.now fault
        → (result ≡ Ending.Memory) ⊎ IsFileFault files counts counts' policy quantity name.now result }
{
    match fault {
        ReadFault::Failed => Ending::Unread(name),
        ReadFault::TooLong => Ending::TooLong(quantity),
        ReadFault::NoMemory => Ending::Memory,
    }
}

/// The first of a command's files.
fn first(files: &[Vec<u8>]) -> &[u8]
    ensures { result.now ≡ first (map (λ file. file.items) files.now) }
{
    match files {
        [] => b"",
        [file, ..] => file,
    }
}

/// The bytes of the files of these names, read one after the other, or why the first that wasn't read wasn't.
pub fn read_files<'w, F: Shelf, N: Sink>(
    alloc: Global,
    quantities: &[Quantity],
    names: &[&'w str],
    shelf: &mut F,
) -> Result<Vec<Vec<u8>>, Ending<'w, N>>
    requires many { length names.now ≡ length quantities.now }
    ensures same { F.files shelf.new ≡ F.files shelf.old }
    ensures read { IfOk result (λ files. HaveBytes (F.files shelf.old) [] quantities.now (map (λ name. name.now) names.now) (map (λ file. file.items) files.items)) }
    ensures unread { IfErr result (λ ending. (ending ≡ Ending.Memory)
        ⊎ IsUnread (F.files shelf.old) (F.faults shelf.old) (F.faults shelf.new) quantities.now (map (λ name. name.now) names.now) ending) }
{
    let mut files = Vec::new(alloc);
    for index in 0..names.len() {
        match read_file(alloc, first(&files), quantities[index], names[index], shelf) {
            Ok(bytes) => {
                if files.push(bytes).is_err() {
                    return Err(Ending::Memory);
                }
            }
            Err(fault) => return Err(without(fault, quantities[index], names[index])),
        }
    }
    Ok(files)
}
