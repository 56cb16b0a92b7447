//! Made games: programs of pieces that a number chooses, and policies likewise.

use crate::told::{Answer, Question, told};
use std::alloc::{AllocError, Global};

/// Each function's beginning, and its label.
const FUNCTIONS: [(&str, &str); 3] = [
    (
        "void f(void);void g(void);void h(void);void f(void){",
        "a:;",
    ),
    ("}void g(void){", "b:;"),
    ("}void h(void){", "c:;"),
];

/// The next of the numbers that choose.
fn next(seed: u32) -> u32 {
    seed.wrapping_mul(1664525).wrapping_add(1013904223)
}

/// The text that the next number chooses.
fn drawn<'t>(seed: &mut u32, of: &[&'t str]) -> &'t str {
    *seed = next(*seed);
    match ((*seed >> 16) as usize).checked_rem(of.len()) {
        None => "",
        Some(at) => of.get(at).copied().unwrap_or(""),
    }
}

/// A piece, or none.
fn piece(seed: &mut u32) -> &'static str {
    let is_put = drawn(seed, &["yes", ""]);
    if is_put.is_empty() {
        return "";
    }
    drawn(
        seed,
        &[
            "f();",
            "g();",
            "h();",
            "if(c){f();}",
            "if(c){g();}",
            "while(c){h();}",
            "while(c){f();g();}",
            "if(c){return;}",
            ";",
            "while(c){;}",
            "if(c){f();g();}",
            "f();f();",
            "g();f();",
            "while(c){while(c){f();}if(c){g();}}",
            "if(c){h();return;}",
            "",
        ],
    )
}

/// Appends texts.
fn put(text: &mut String, parts: &[&str]) -> Result<(), AllocError> {
    for part in parts {
        text.push_str(part)?;
    }
    Ok(())
}

/// A source of a number, with up to two pieces before each label and two behind it.
fn put_source(seed: &mut u32, text: &mut String) -> Result<(), AllocError> {
    for (beginning, label) in &FUNCTIONS {
        let first = piece(seed);
        let second = piece(seed);
        let third = piece(seed);
        let fourth = piece(seed);
        put(text, &[*beginning, first, second, *label, third, fourth])?;
    }
    let start = drawn(seed, &["f();", "g();d:;", "e:;h();", "d:;"]);
    let end = drawn(seed, &["f();", "g();", "if(c){h();}", "while(c){f();g();}"]);
    put(text, &["}int main(void){", start, end, "return 0;}"])
}

/// A policy of a number.
fn put_policy(seed: &mut u32, text: &mut String) -> Result<(), AllocError> {
    let split = drawn(
        seed,
        &[
            "",
            "split = [\"f\"]\n",
            "split = [\"g\"]\n",
            "split = [\"f\", \"h\"]\n",
        ],
    );
    let bad = drawn(
        seed,
        &[
            "a",
            ".* a",
            "b* b b",
            ".* b .* b",
            "d* d d",
            ".* b",
            "a b",
            ".* a[!amb] .* b",
            "a b[amb]",
            ".* c .* d",
            "d c* a",
            ".* d .* a .* b",
            "e* e e",
            ".* e .* c[amb]",
            "d",
            ".* d .* d",
        ],
    );
    put(
        text,
        &[
            "format = 1\n",
            split,
            "[[rule]]\nname = \"r\"\nbad = \"",
            bad,
            "\"\n",
        ],
    )
}

/// What both solvers tell of the game of a number.
fn told_of(alloc: Global, number: u32) -> Result<Answer, AllocError> {
    let mut seed = next(next(number.wrapping_mul(7919)));
    let mut source = String::new(alloc);
    put_source(&mut seed, &mut source)?;
    let mut policy = String::new(alloc);
    put_policy(&mut seed, &mut policy)?;
    Ok(told(alloc, &policy, &source, Question::Both))
}

/// How many contexts and cells the games of the numbers below have together; no more are counted where one isn't solved alike.
fn sum_of(alloc: Global, numbers: u32) -> Result<(u32, u64, u64), AllocError> {
    let mut contexts: u64 = 0;
    let mut cells: u64 = 0;
    for number in 0..numbers {
        let (what, some, more) = told_of(alloc, number)?;
        if what != "solved" {
            return Ok((number, contexts, cells));
        }
        contexts = contexts.saturating_add(some);
        cells = cells.saturating_add(more);
    }
    Ok((numbers, contexts, cells))
}

#[test]
fn made_games(rt: HostRuntime) {
    let sum = sum_of(rt.alloc(), 100).expect(&rt, "games");
    assert_eq!(rt; sum, (100, 532, 73478));
}
