//! Kinds of bytes.

ghost use Rattle.std.specs.Prelude.{◌≡◌, ◌+◌, ◌≤◌, length, drop};
ghost use Rattle.cw_lex.specs.Bytes.{is_white, is_blank, is_letter, is_digit, is_octal_digit, is_hexadecimal_digit, is_name_byte, is_number_byte};

/// White space (ISO C11, 6.4): space, tab, line feed, vertical tab, form feed, carriage return.
pub(crate) fn is_white(byte: u8) -> bool
    ensures { result ≡ is_white byte }
{
    byte == b' ' || (9 <= byte && byte <= 13)
}

/// A space or a tab.
pub(crate) fn is_blank(byte: u8) -> bool
    ensures { result ≡ is_blank byte }
{
    byte == b' ' || byte == b'\t'
}

/// A byte that may begin a name: a letter or `_` (ISO C11, 6.4.2.1).
pub(crate) fn is_letter(byte: u8) -> bool
    ensures { result ≡ is_letter byte }
{
    (b'a' <= byte && byte <= b'z') || (b'A' <= byte && byte <= b'Z') || byte == b'_'
}

/// A decimal digit.
pub(crate) fn is_digit(byte: u8) -> bool
    ensures { result ≡ is_digit byte }
{
    b'0' <= byte && byte <= b'9'
}

/// An octal digit.
pub(crate) fn is_octal_digit(byte: u8) -> bool
    ensures { result ≡ is_octal_digit byte }
{
    b'0' <= byte && byte <= b'7'
}

/// A hexadecimal digit, of either case.
pub(crate) fn is_hexadecimal_digit(byte: u8) -> bool
    ensures { result ≡ is_hexadecimal_digit byte }
{
    is_digit(byte) || (b'a' <= byte && byte <= b'f') || (b'A' <= byte && byte <= b'F')
}

/// A byte that may stand in a name: a letter, `_` or a digit (ISO C11, 6.4.2.1).
pub(crate) fn is_name_byte(byte: u8) -> bool
    ensures { result ≡ is_name_byte byte }
{
    // Most of what follows a name is white space or punctuation of a lesser code than all of these.
    byte >= b'0' && (is_letter(byte) || is_digit(byte))
}

/// A byte that may stand in a number as the preprocessor takes it: of a name, or `.` (ISO C11, 6.4.8).
pub(crate) fn is_number_byte(byte: u8) -> bool
    ensures { result ≡ is_number_byte byte }
{
    is_name_byte(byte) || byte == b'.'
}

/// The bytes from an index on.
pub(crate) fn tail(bytes: &[u8], at: usize) -> &[u8]
    requires in_range { at ≤ length bytes.now }
    ensures rest { result.now ≡ drop at bytes.now }
    ensures length { at + length result.now ≡ length bytes.now }
{
    &bytes[at..]
}
