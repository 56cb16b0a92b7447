//! Tokens as the grammar sees them: each is one of its terminals, with its place.

/// A terminal of the grammar: a keyword, a name, a number or a character with its value, a string, or a punctuator. Public source:
/// ISO/IEC 9899:2011, 6.4.
#[derive(Clone, Copy, Drop, Debug, PartialEq, Eq)]
pub enum Terminal {
    Extern,
    Static,
    Const,
    Void,
    Unsigned,
    Char,
    Int,
    Long,
    If,
    Else,
    While,
    Do,
    For,
    Break,
    Continue,
    Return,
    SizeOf,
    /// A keyword that the grammar doesn't use.
    OtherKeyword,
    Name,
    Number(u64),
    Character(u8),
    Text,
    /// `(`
    Open,
    /// `)`
    Close,
    /// `[`
    OpenBracket,
    /// `]`
    CloseBracket,
    /// `{`
    OpenBrace,
    /// `}`
    CloseBrace,
    /// `;`
    Semicolon,
    /// `,`
    Comma,
    /// `:`
    Colon,
    /// `=`
    Assign,
    /// `+=`
    AddAssign,
    /// `-=`
    SubtractAssign,
    /// `*=`
    MultiplyAssign,
    /// `/=`
    DivideAssign,
    /// `%=`
    RemainderAssign,
    /// `&=`
    AndAssign,
    /// `^=`
    XorAssign,
    /// `|=`
    OrAssign,
    /// `<<=`
    LeftShiftAssign,
    /// `>>=`
    RightShiftAssign,
    /// `||`
    BarBar,
    /// `&&`
    AmpersandAmpersand,
    /// `|`
    Bar,
    /// `^`
    Caret,
    /// `&`
    Ampersand,
    /// `==`
    Equal,
    /// `!=`
    NotEqual,
    /// `<`
    Less,
    /// `<=`
    LessEqual,
    /// `>`
    Greater,
    /// `>=`
    GreaterEqual,
    /// `<<`
    LeftShift,
    /// `>>`
    RightShift,
    /// `+`
    Plus,
    /// `-`
    Minus,
    /// `*`
    Star,
    /// `/`
    Slash,
    /// `%`
    Percent,
    /// `!`
    Exclamation,
    /// `~`
    Tilde,
    /// `++`
    PlusPlus,
    /// `--`
    MinusMinus,
}

/// A token: its terminal, the place of its first byte in the source, and the place after its last.
#[derive(Clone, Copy, Drop, Debug, PartialEq, Eq)]
pub struct Lexeme {
    pub terminal: Terminal,
    pub from: u32,
    pub to: u32,
}

ghost use Rattle.std.specs.Prelude.{◌≡◌};
ghost use Rattle.cw_grammar.specs.Terminals.{code, same};

/// A number for each kind of terminal.
#[inline(always)]
fn number_of(terminal: Terminal) -> u8
    ensures { result ≡ code terminal }
{
    match terminal {
        Terminal::Extern => 0,
        Terminal::Static => 1,
        Terminal::Const => 2,
        Terminal::Void => 3,
        Terminal::Unsigned => 4,
        Terminal::Char => 5,
        Terminal::Int => 6,
        Terminal::Long => 7,
        Terminal::If => 8,
        Terminal::Else => 9,
        Terminal::While => 10,
        Terminal::Do => 11,
        Terminal::For => 12,
        Terminal::Break => 13,
        Terminal::Continue => 14,
        Terminal::Return => 15,
        Terminal::SizeOf => 16,
        Terminal::OtherKeyword => 17,
        Terminal::Name => 18,
        Terminal::Text => 19,
        Terminal::Open => 20,
        Terminal::Close => 21,
        Terminal::OpenBracket => 22,
        Terminal::CloseBracket => 23,
        Terminal::OpenBrace => 24,
        Terminal::CloseBrace => 25,
        Terminal::Semicolon => 26,
        Terminal::Comma => 27,
        Terminal::Colon => 28,
        Terminal::Assign => 29,
        Terminal::AddAssign => 30,
        Terminal::SubtractAssign => 31,
        Terminal::MultiplyAssign => 32,
        Terminal::DivideAssign => 33,
        Terminal::RemainderAssign => 34,
        Terminal::AndAssign => 35,
        Terminal::XorAssign => 36,
        Terminal::OrAssign => 37,
        Terminal::LeftShiftAssign => 38,
        Terminal::RightShiftAssign => 39,
        Terminal::BarBar => 40,
        Terminal::AmpersandAmpersand => 41,
        Terminal::Bar => 42,
        Terminal::Caret => 43,
        Terminal::Ampersand => 44,
        Terminal::Equal => 45,
        Terminal::NotEqual => 46,
        Terminal::Less => 47,
        Terminal::LessEqual => 48,
        Terminal::Greater => 49,
        Terminal::GreaterEqual => 50,
        Terminal::LeftShift => 51,
        Terminal::RightShift => 52,
        Terminal::Plus => 53,
        Terminal::Minus => 54,
        Terminal::Star => 55,
        Terminal::Slash => 56,
        Terminal::Percent => 57,
        Terminal::Exclamation => 58,
        Terminal::Tilde => 59,
        Terminal::PlusPlus => 60,
        Terminal::MinusMinus => 61,
        Terminal::Number(_) => 62,
        Terminal::Character(_) => 63,
    }
}

/// Whether two terminals are of one kind. Numbers are, and characters, whatever their values are.
#[inline(always)]
pub fn is_same(a: Terminal, b: Terminal) -> bool
    ensures same { result ≡ same a b }
{
    number_of(a) == number_of(b)
}
