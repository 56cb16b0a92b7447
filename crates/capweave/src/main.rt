//! CapWeave: weaves the sandboxing calls of capsicum(4) into a C program, so that each of its runs meets a policy.
#![tactic(auto)]

use cw_cli::capweave;
use cw_core::NoMemory;
use cw_io::{FileShelf, Sink, StreamSink};
use std::env::{Env, FillError};
use std::io;
use std::io::BufWriter;
use std::process::ExitCode;

/// The status of want of memory.
const MEMORY: u8 = 8;

/// How many bytes of a long text go to the system in one write.
const BUFFER: usize = 65_536;

/// The end of a run whose arguments found no memory.
fn end_without_memory(rt: &HostRuntime) -> ExitCode {
    let stderr = rt.stderr();
    let mut note = StreamSink::make(io::writer(&stderr));
    // What the note answers changes no status.
    let _ = note.put(b"memory\n");
    ExitCode::from(MEMORY)
}

/// What the command line has as the argument of a number.
#[derive(Drop)]
enum Argument {
    /// Nothing: it is behind the last argument.
    Nothing,
    /// An argument of UTF-8.
    Text(String),
    /// An argument of other bytes.
    Bytes,
}

/// An argument, if it is UTF-8.
fn text_of(rt: &HostRuntime, argument: &[u8]) -> Result<Argument, NoMemory> {
    match str::from_utf8(argument) {
        Ok(text) => Ok(Argument::Text(String::from_str(rt.alloc(), text)?)),
        Err(_) => Ok(Argument::Bytes),
    }
}

/// The argument of a number, counted from the program's name. A system's arguments are shorter than 2 GB.
fn argument_at(rt: &HostRuntime, number: usize) -> Result<Argument, NoMemory> {
    for bits in 8_u32..32 {
        let mut argument = vec![in rt.alloc(); 0_u8; 1_usize << bits]?;
        match rt.arg(number, &mut argument) {
            Ok(length) => return text_of(rt, &argument[..length]),
            Err(FillError::NotPresent) => return Ok(Argument::Nothing),
            Err(FillError::TooLong) => {}
        }
    }
    Err(NoMemory)
}

/// The arguments behind the program's name. Where one isn't UTF-8, the first of them alone, if that is: one argument fits no command.
fn arguments_of(rt: &HostRuntime) -> Result<Vec<String>, NoMemory> {
    let mut arguments = Vec::new(rt.alloc());
    for number in 1..usize::MAX {
        match argument_at(rt, number)? {
            Argument::Text(argument) => arguments.push(argument)?,
            Argument::Bytes => {
                arguments.truncate(1);
                break;
            }
            Argument::Nothing => break,
        }
    }
    Ok(arguments)
}

/// Runs the command that the arguments say over the files and streams of the system, and exits with its status.
fn main(rt: HostRuntime) -> ExitCode {
    let Ok(arguments) = arguments_of(&rt) else {
        return end_without_memory(&rt);
    };
    let Ok(writer) = BufWriter::with_capacity(rt.alloc(), BUFFER, io::writer(&rt)) else {
        return end_without_memory(&rt);
    };
    let stderr = rt.stderr();
    let mut shelf = FileShelf::make(&rt);
    let mut out = StreamSink::make(writer);
    let mut note = StreamSink::make(io::writer(&stderr));
    ExitCode::from(capweave(rt.alloc(), &arguments, &mut shelf, &mut out, &mut note))
}
