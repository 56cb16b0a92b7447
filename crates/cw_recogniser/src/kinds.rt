//! The kinds of terminals that the recogniser tells apart.

ghost use Rattle.std.specs.Prelude.{◌≡◌};
ghost use Rattle.cw_recogniser.specs.Kinds.{kind_of_terminal};

use cw_grammar::terminals::Terminal;

/// Terminals that stand at the same places of the grammar are of one kind.
#[derive(Clone, Copy, Drop, Debug)]
pub enum TerminalKind {
    /// `extern` and `static`
    Storage,
    Const,
    Void,
    Unsigned,
    Char,
    Int,
    Long,
    If,
    Else,
    While,
    Do,
    For,
    /// `break` and `continue`
    Jump,
    Return,
    SizeOf,
    Name,
    /// numbers and characters
    Constant,
    Text,
    Open,
    Close,
    OpenBracket,
    CloseBracket,
    OpenBrace,
    CloseBrace,
    Semicolon,
    Comma,
    Colon,
    Assign,
    /// `+=` and its like
    Update,
    Star,
    /// `+`, `-` and `&`, which stand before an operand and between two
    Both,
    /// what stands between two operands alone
    Binary,
    /// `!` and `~`
    Sign,
    /// `++` and `--`
    Step,
    /// no terminal of the grammar
    Other,
}

/// The kind of a terminal.
pub fn kind_of(terminal: Terminal) -> TerminalKind
    ensures { result ≡ kind_of_terminal terminal }
{
    match terminal {
        Terminal::Extern | Terminal::Static => TerminalKind::Storage,
        Terminal::Const => TerminalKind::Const,
        Terminal::Void => TerminalKind::Void,
        Terminal::Unsigned => TerminalKind::Unsigned,
        Terminal::Char => TerminalKind::Char,
        Terminal::Int => TerminalKind::Int,
        Terminal::Long => TerminalKind::Long,
        Terminal::If => TerminalKind::If,
        Terminal::Else => TerminalKind::Else,
        Terminal::While => TerminalKind::While,
        Terminal::Do => TerminalKind::Do,
        Terminal::For => TerminalKind::For,
        Terminal::Break | Terminal::Continue => TerminalKind::Jump,
        Terminal::Return => TerminalKind::Return,
        Terminal::SizeOf => TerminalKind::SizeOf,
        Terminal::OtherKeyword => TerminalKind::Other,
        Terminal::Name => TerminalKind::Name,
        Terminal::Number(_) | Terminal::Character(_) => TerminalKind::Constant,
        Terminal::Text => TerminalKind::Text,
        Terminal::Open => TerminalKind::Open,
        Terminal::Close => TerminalKind::Close,
        Terminal::OpenBracket => TerminalKind::OpenBracket,
        Terminal::CloseBracket => TerminalKind::CloseBracket,
        Terminal::OpenBrace => TerminalKind::OpenBrace,
        Terminal::CloseBrace => TerminalKind::CloseBrace,
        Terminal::Semicolon => TerminalKind::Semicolon,
        Terminal::Comma => TerminalKind::Comma,
        Terminal::Colon => TerminalKind::Colon,
        Terminal::Assign => TerminalKind::Assign,
        Terminal::AddAssign
        | Terminal::SubtractAssign
        | Terminal::MultiplyAssign
        | Terminal::DivideAssign
        | Terminal::RemainderAssign
        | Terminal::AndAssign
        | Terminal::XorAssign
        | Terminal::OrAssign
        | Terminal::LeftShiftAssign
        | Terminal::RightShiftAssign => TerminalKind::Update,
        Terminal::BarBar
        | Terminal::AmpersandAmpersand
        | Terminal::Bar
        | Terminal::Caret
        | Terminal::Equal
        | Terminal::NotEqual
        | Terminal::Less
        | Terminal::LessEqual
        | Terminal::Greater
        | Terminal::GreaterEqual
        | Terminal::LeftShift
        | Terminal::RightShift
        | Terminal::Slash
        | Terminal::Percent => TerminalKind::Binary,
        Terminal::Ampersand | Terminal::Plus | Terminal::Minus => TerminalKind::Both,
        Terminal::Star => TerminalKind::Star,
        Terminal::Exclamation | Terminal::Tilde => TerminalKind::Sign,
        Terminal::PlusPlus | Terminal::MinusMinus => TerminalKind::Step,
    }
}
