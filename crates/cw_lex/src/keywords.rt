//! Keywords.

ghost use Rattle.std.specs.Prelude.{◌≡◌, ◌||◌};
ghost use Rattle.std.specs.Str.{bytes_eq};
ghost use Rattle.cw_lex.specs.Keywords.{is_keyword};

/// Whether a text is one of two.
#[inline(always)]
fn is_of_two(text: &[u8], first: &[u8], second: &[u8]) -> bool
    ensures { result ≡ (bytes_eq text.now first.now || bytes_eq text.now second.now) }
{
    text == first || text == second
}

/// Whether a text is one of three.
#[inline(always)]
fn is_of_three(text: &[u8], first: &[u8], second: &[u8], third: &[u8]) -> bool
    ensures { result ≡ (bytes_eq text.now first.now || bytes_eq text.now second.now || bytes_eq text.now third.now) }
{
    text == first || text == second || text == third
}

/// Whether a text is one of the 44 keywords.
#[inline(never)]
#[tactic(auto, unfolding(crate::specs::Keywords::is_keyword))]
pub(crate) fn is_keyword(text: &[u8]) -> bool
    ensures { result ≡ is_keyword text.now }
{
    let [first, ..] = text else {
        return false;
    };
    match *first {
        b'a' => text == b"auto".as_slice(),
        b'b' => text == b"break".as_slice(),
        b'c' => { is_of_two(text, b"case", b"char") || is_of_two(text, b"const", b"continue") }
        b'd' => is_of_three(text, b"default", b"do", b"double"),
        b'e' => is_of_three(text, b"else", b"enum", b"extern"),
        b'f' => is_of_two(text, b"float", b"for"),
        b'g' => text == b"goto".as_slice(),
        b'i' => is_of_three(text, b"if", b"inline", b"int"),
        b'l' => text == b"long".as_slice(),
        b'r' => is_of_three(text, b"register", b"restrict", b"return"),
        b's' => {
            is_of_three(text, b"short", b"signed", b"sizeof")
                || is_of_three(text, b"static", b"struct", b"switch")
        }
        b't' => text == b"typedef".as_slice(),
        b'u' => is_of_two(text, b"union", b"unsigned"),
        b'v' => is_of_two(text, b"void", b"volatile"),
        b'w' => text == b"while".as_slice(),
        b'_' => {
            is_of_two(text, b"_Alignas", b"_Alignof")
                || is_of_three(text, b"_Atomic", b"_Bool", b"_Complex")
                || is_of_two(text, b"_Generic", b"_Imaginary")
                || is_of_three(text, b"_Noreturn", b"_Static_assert", b"_Thread_local")
        }
        _ => false,
    }
}
