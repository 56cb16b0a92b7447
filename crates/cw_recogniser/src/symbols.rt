//! What the recogniser expects.

/// A part of a text that is still to come. Those that may be empty say so.
#[derive(Clone, Copy, Drop, Debug)]
pub enum Symbol {
    Open,
    Close,
    CloseBracket,
    CloseBrace,
    Semicolon,
    While,
    Name,
    /// an expression
    Expression,
    /// a unary, or a cast of one
    Operand,
    Unary,
    /// behind `sizeof`
    Measured,
    /// behind a `(` at the front of an expression: the rest of a cast or of parentheses, and of the expression
    AfterOpen,
    /// behind a `(` at the front of an operand
    AfterOpenOperand,
    /// behind `sizeof (`
    AfterOpenMeasured,
    /// may be empty: the arguments behind a name, with their parentheses
    Call,
    /// may be empty: strings behind a string
    Texts,
    /// may be empty: what makes a larger postfix of a postfix
    Suffixes,
    /// may be empty: the rest of an expression behind its first operand. Where that is a unary, it may be assigned to
    Tail(bool),
    /// may be empty
    MaybeExpression,
    /// may be empty: what stands in a call's parentheses
    Arguments,
    /// may be empty: arguments, each behind a comma
    MoreArguments,
    /// a type with or without `const`
    Qualified,
    Type,
    /// may be empty: the rest of a type
    AfterUnsigned,
    /// may be empty: the rest of a type
    AfterLong,
    /// may be empty: at most two stars
    TwoStars,
    /// may be empty: at most one star
    OneStar,
    /// may be empty: an array's brackets
    Array,
    /// may be empty: `=` and what stands behind it
    Initialiser,
    Initial,
    /// may be empty: elements behind a comma, and a last comma
    MoreElements,
    /// may be empty: elements behind the first comma
    Elements,
    /// may be empty: items, each behind a comma
    MoreItems,
    /// may be empty: the parts of a file
    Parts,
    /// the rest of a part behind its first name
    AfterDeclared,
    /// the rest of a part behind the `(` of its parameters
    Params,
    /// the same behind `(void`
    AfterVoid,
    /// the same at a parameter. Here and below: whether all parameters so far have names
    Param(bool),
    /// the same behind a parameter's type
    AfterType(bool),
    /// may be empty: the brackets of a parameter
    Brackets,
    /// the same behind a parameter
    MoreParams(bool),
    /// the same behind the `)`
    Ending(bool),
    /// may be empty: what stands in a block
    Items,
    Statement,
    /// the rest of a statement behind a name
    AfterName,
    /// may be empty: `else` and its statement
    MaybeElse,
    /// the first part of a `for`, with its semicolon
    ForInit,
}
