//! The scan of a text: whether it is of the grammar, and if not, where it stops.

ghost use Rattle.std.specs.Prelude.{◌≡◌, ◌+◌, ◌-◌, ◌<◌, ◌≤◌, length, drop, cond, true, false, Some, ◌&&◌, IfOk, IfErr};
ghost use Rattle.std.specs.Option.{option_map};
ghost use Rattle.cw_regex.specs.Parts.{sign, parts, ends_blank};
ghost use Rattle.cw_regex.specs.Grammar.{IsFaultAt};
ghost use Rattle.cw_regex.specs.Machine.{step, start, ends_here, deepest, In, kept};
ghost use Rattle.cw_regex.specs.Fronts.{IsBlankAt, IsSignAt, IsIdentifierAt};
ghost use Rattle.cw_regex.specs.Scans.{ScanAt};

use crate::phase::{Phase, ends_here, is_held, kept, start, step, step_identifier};
use crate::text::{Front, Sign, ends_blank, front_at};

/// How far a scan has come: the place, the phase, how many parentheses are open and were open at most.
#[derive(Clone, Copy, Drop)]
pub struct Scanned {
    pub at: usize,
    pub phase: Phase,
    pub depth: u32,
    pub most: u32,
}

/// Goes over a blank.
fn scan_blank(text: &[u8], alone: bool, scan: Scanned) -> Result<Scanned, usize>
    requires is { ScanAt alone text.now scan }
    requires blank { IsBlankAt text.now scan.at }
    ensures ok { IfOk result (λ next. ScanAt alone text.now next) }
    ensures on { IfOk result (λ next. scan.at < next.at) }
    ensures err { IfErr result (λ n. IsFaultAt (In alone) text.now n) }
{
    if scan.at == 0 {
        return Err(scan.at);
    }
    if is_held(alone, scan.phase) {
        return Err(scan.at);
    }
    Ok(Scanned {
        at: scan.at + 1,
        ..scan
    })
}

/// Goes over an identifier.
fn scan_identifier(text: &[u8], alone: bool, scan: Scanned, end: usize) -> Result<Scanned, usize>
    requires is { ScanAt alone text.now scan }
    requires identifier { IsIdentifierAt text.now scan.at end }
    ensures ok { IfOk result (λ next. ScanAt alone text.now next) }
    ensures on { IfOk result (λ next. scan.at < next.at) }
    ensures err { IfErr result (λ n. IsFaultAt (In alone) text.now n) }
{
    match step_identifier(scan.phase, &text[scan.at..end]) {
        Some(phase) => Ok(Scanned {
            at: end,
            phase,
            ..scan
        }),
        None if kept(scan.phase, text[scan.at]) => Err(scan.at + 1),
        None => Err(scan.at),
    }
}

/// Goes over a sign.
fn scan_sign(text: &[u8], alone: bool, scan: Scanned, sign: Sign) -> Result<Scanned, usize>
    requires is { ScanAt alone text.now scan }
    requires sign { IsSignAt text.now scan.at sign }
    requires few { length text.now ≤ 65535 }
    ensures ok { IfOk result (λ next. ScanAt alone text.now next) }
    ensures on { IfOk result (λ next. scan.at < next.at) }
    ensures err { IfErr result (λ n. IsFaultAt (In alone) text.now n) }
{
    match step(alone, scan.phase, scan.depth, sign) {
        Some((phase, depth)) => Ok(Scanned {
            at: scan.at + 1,
            phase,
            depth,
            most: scan.most.max(depth),
        }),
        None => Err(scan.at),
    }
}

/// Goes over what stands next.
fn scan_front(text: &[u8], alone: bool, scan: Scanned) -> Result<Scanned, usize>
    requires is { ScanAt alone text.now scan }
    requires more { scan.at < length text.now }
    requires few { length text.now ≤ 65535 }
    ensures ok { IfOk result (λ next. ScanAt alone text.now next) }
    ensures on { IfOk result (λ next. scan.at < next.at) }
    ensures err { IfErr result (λ n. IsFaultAt (In alone) text.now n) }
{
    match front_at(text, scan.at) {
        Front::Blank => scan_blank(text, alone, scan),
        Front::Identifier(end) => scan_identifier(text, alone, scan, end),
        Front::Sign(sign) => scan_sign(text, alone, scan, sign),
    }
}

/// Goes over the whole text.
fn scan_all(text: &[u8], alone: bool) -> Result<Scanned, usize>
    requires { length text.now ≤ 65535 }
    ensures ok { IfOk result (λ all. ScanAt alone text.now all) }
    ensures all { IfOk result (λ all. length text.now ≤ all.at) }
    ensures err { IfErr result (λ n. IsFaultAt (In alone) text.now n) }
{
    let mut scan = Scanned {
        at: 0,
        phase: start(alone),
        depth: 0,
        most: 0,
    };
    while scan.at < text.len() {
        scan = scan_front(text, alone, scan)?;
    }
    Ok(scan)
}

/// Whether a text that was gone over may end there.
fn may_end(text: &[u8], alone: bool, all: Scanned) -> bool
    ensures { result ≡ (ends_here alone all.phase all.depth && cond (ends_blank text.now) false true) }
{
    ends_here(alone, all.phase, all.depth) && !ends_blank(text)
}

/// Scans an expression, or a test by itself: how many parentheses are open at most, or the least offset at which
/// nothing goes on.
pub fn scan(text: &[u8], alone: bool) -> Result<u32, usize>
    requires { length text.now ≤ 65535 }
    ensures ok { IfOk result (λ _. In alone text.now) }
    ensures most { IfOk result (λ most. deepest 0 (parts text.now) ≡ most) }
    ensures err { IfErr result (λ n. IsFaultAt (In alone) text.now n) }
{
    let all = scan_all(text, alone)?;
    if may_end(text, alone, all) {
        return Ok(all.most);
    }
    Err(text.len())
}
