//! A buffer of fixed size, for a piece of text that is put together without memory.

ghost use Rattle.std.specs.Prelude.{◌≡◌, ℕ, ◌+◌, ◌*◌, ◌/◌, ◌%◌, ◌^◌, ◌<◌, ◌≤◌, ◌++◌, ◌∷◌, [], List, map, length, take};
ghost use Rattle.std.specs.Char.{digit_char};
ghost use Rattle.std.specs.Fmt.{decimal};
ghost use Rattle.cw_core.specs.Digits.{lowest_digits};
ghost use Rattle.cw_core.specs.Numerals.{hexadecimal};

use crate::state_set::StateSet;
use itoa::write_digits;
use std::marker::Model;

/// A text of at most 1,024 bytes. A contract sees it as the list of its bytes. No call takes memory.
#[derive(Drop)]
pub struct Line {
    bytes: [u8; 1024],
    len: u16,
}

impl Model for Line {
    ghost Value = { List ℕ };

    ghost view = { λ l. take l.len l.bytes };

    ghost invariant = { λ l. l.len ≤ 1024 };
}

impl Line {
    /// The empty text.
    pub fn new() -> Line
        ensures empty { result ≡ [] }
    {
        Line {
            bytes: [0; 1024],
            len: 0,
        }
    }

    /// Makes the text empty.
    pub fn clear(&mut self)
        ensures empty { self.new ≡ [] }
    {
        self.len = 0;
    }

    /// The text.
    pub fn bytes(&self) -> &[u8]
        ensures bytes { result.now ≡ self.now }
    {
        &self.bytes[..self.len as usize]
    }

    /// How many bytes more there is room for: 1,024 less the text's length.
    pub fn room(&self) -> usize
        ensures room { result + length self.now ≡ 1024 }
    {
        1024 - self.len as usize
    }

    /// Appends a text.
    pub fn put_text(&mut self, piece: &[u8])
        requires room { length self.old + length piece.now ≤ 1024 }
        ensures text { self.new ≡ self.old ++ piece.now }
    {
        let from = self.len as usize;
        let to = from + piece.len();
        self.bytes[from..to].copy_from_slice(piece);
        self.len = to as u16;
    }

    /// Appends the decimal of a number, without leading zeros, as `put_dec` does.
    pub fn put_number(&mut self, n: u64)
        requires room { length self.old + 20 ≤ 1024 }
        ensures text { self.new ≡ self.old ++ decimal n }
    {
        let end = write_number(n, &mut self.bytes, self.len as usize);
        self.len = end as u16;
    }

    /// Appends `0x` and the shortest lower-case hexadecimal of a set's number, as `put_hex` does.
    pub fn put_mask(&mut self, set: &StateSet)
        requires room { length self.old + 258 ≤ 1024 }
        ensures text { self.new ≡ self.old ++ hexadecimal set.now }
    {
        set.fact_members_are_below_1024();
        self.put_fitting_mask(set);
    }

    /// Appends the same, where there is room for that text, if for no more.
    pub fn put_fitting_mask(&mut self, set: &StateSet)
        requires room { length self.old + length (hexadecimal set.now) ≤ 1024 }
        ensures text { self.new ≡ self.old ++ hexadecimal set.now }
    {
        self.put_text(b"0x");
        let count = set.digit_count();
        self.put_odd_digit(set, count);
        self.put_pairs(set, count / 2);
    }

    /// Appends the first of so many digits of a set's number where their count is odd, so that the others are two for
    /// each byte.
    fn put_odd_digit(&mut self, set: &StateSet, count: usize)
        requires room { length self.old + count ≤ 1024 }
        requires within { count ≤ 256 }
        ensures room { length self.new + 2 * (count / 2) ≤ 1024 }
        ensures text { self.new ++ map digit_char (lowest_digits (2 * (count / 2)) set.now)
            ≡ self.old ++ map digit_char (lowest_digits count set.now) }
    {
        if count % 2 == 1 {
            self.put_byte(glyph_of(set.nibble(count - 1)));
        }
    }

    /// Appends the lowest hexadecimal digits of a set's number, two for each of so many bytes.
    fn put_pairs(&mut self, set: &StateSet, count: usize)
        requires room { length self.old + 2 * count ≤ 1024 }
        requires within { count ≤ 128 }
        ensures text { self.new ≡ self.old ++ map digit_char (lowest_digits (2 * count) set.now) }
    {
        let end = write_pairs(set, count, &mut self.bytes, self.len as usize);
        self.len = end as u16;
    }

    /// Appends a byte.
    fn put_byte(&mut self, byte: u8)
        requires room { length self.old < 1024 }
        ensures text { self.new ≡ self.old ++ byte ∷ [] }
    {
        self.bytes[self.len as usize] = byte;
        self.len += 1;
    }
}

/// The two hexadecimal digits of each byte, one byte after another.
static PAIRS: [u8; 512] =
    *b"000102030405060708090a0b0c0d0e0f101112131415161718191a1b1c1d1e1f202122232425262728292a2b2c2d2e2f303132333435363738393a3b3c3d3e3f404142434445464748494a4b4c4d4e4f505152535455565758595a5b5c5d5e5f606162636465666768696a6b6c6d6e6f707172737475767778797a7b7c7d7e7f808182838485868788898a8b8c8d8e8f909192939495969798999a9b9c9d9e9fa0a1a2a3a4a5a6a7a8a9aaabacadaeafb0b1b2b3b4b5b6b7b8b9babbbcbdbebfc0c1c2c3c4c5c6c7c8c9cacbcccdcecfd0d1d2d3d4d5d6d7d8d9dadbdcdddedfe0e1e2e3e4e5e6e7e8e9eaebecedeeeff0f1f2f3f4f5f6f7f8f9fafbfcfdfeff";

/// Writes the lowest hexadecimal digits of a set's number from an index on, two for each of so many bytes, and
/// answers the index behind them.
fn write_pairs(set: &StateSet, count: usize, text: &mut [u8], from: usize) -> usize
    requires within { count ≤ 128 }
    requires room { from + 2 * count ≤ length text.old }
    ensures end { result ≡ from + 2 * count }
    ensures text { take result text.new
        ≡ take from text.old ++ map digit_char (lowest_digits (2 * count) set.now) }
{
    let mut at = from;
    let mut left = count;
    'pairs: while left % 8 > 0 {
        left -= 1;
        let pair = 2 * usize::from(set.byte(left));
        text[at] = PAIRS[pair];
        text[at + 1] = PAIRS[pair + 1];
        at += 2;
    }
    'limbs: while left > 0 {
        left -= 8;
        write_limb(set.limb(left / 8), &mut text[at..at + 16]);
        at += 16;
    }
    at
}

/// Writes the 16 hexadecimal digits of a limb, zeros in front too, over a text of 16 bytes.
#[inline(always)]
fn write_limb(limb: u64, text: &mut [u8])
    requires long { length text.old ≡ 16 }
    ensures digits { text.new ≡ map digit_char (lowest_digits 16 limb) }
{
    let mut at: usize = 0;
    let mut left: usize = 8;
    'pairs: while left > 0 {
        left -= 1;
        let pair = 2 * usize::from(byte_of(limb, left));
        text[at] = PAIRS[pair];
        text[at + 1] = PAIRS[pair + 1];
        at += 2;
    }
}

/// The eight bits of a limb from bit 8 times an index on.
#[inline(always)]
fn byte_of(limb: u64, index: usize) -> u8
    requires in_range { index < 8 }
    ensures value { result ≡ limb / 2 ^ (8 * index) % 2 ^ 8 }
{
    ((limb >> (8 * index)) & 255) as u8
}

/// A hexadecimal digit as a byte.
fn glyph_of(digit: u8) -> u8
    requires digit { digit < 16 }
    ensures glyph { result ≡ digit_char digit }
{
    if digit < 10 {
        b'0' + digit
    } else {
        b'a' + (digit - 10)
    }
}

/// Writes the decimal of a number from an index on, and answers the index behind it.
fn write_number(n: u64, text: &mut [u8], from: usize) -> usize
    requires room { from + 20 ≤ length text.old }
    ensures within { result ≤ from + 20 }
    ensures text { take result text.new ≡ take from text.old ++ decimal n }
{
    let end = from + decimal_length(n);
    write_digits(n, text, end);
    end
}

/// How many digits the decimal of a number has.
fn decimal_length(n: u64) -> usize
    ensures length { result ≡ length (decimal n) }
    ensures few { result ≤ 20 }
{
    let mut left = n;
    let mut count: usize = 0;
    'fours: while left >= 10_000 {
        left /= 10_000;
        count += 4;
    }
    count + short_length(left)
}

/// How many digits the decimal of a number below 10,000 has.
fn short_length(n: u64) -> usize
    requires below { n < 10000 }
    ensures length { result ≡ length (decimal n) }
    ensures few { result ≤ 4 }
{
    if n < 10 {
        1
    } else if n < 100 {
        2
    } else if n < 1000 {
        3
    } else {
        4
    }
}
