use crate::place::Place;

/// A token: what it is, and where it stands. Its text is the bytes from `start` to before `end`.
#[derive(Clone, Copy, Debug, PartialEq, Eq)]
pub struct Token {
    pub kind: TokenKind,
    pub start: u32,
    pub end: u32,
    pub place: Place,
}

/// What a token is. The text of a name is the token's bytes.
#[derive(Clone, Copy, Debug, PartialEq, Eq)]
pub enum TokenKind {
    Name,
    /// A bit-vector type, by its width.
    BvType(u32),
    /// A number, by its value.
    Number(u128),
    /// A bit-vector literal, by its value and its width.
    BvLit(u128, u32),
    KwModule,
    KwType,
    KwVar,
    KwInput,
    KwOutput,
    KwConst,
    KwFunction,
    KwDefine,
    KwProcedure,
    KwReturns,
    KwRequires,
    KwEnsures,
    KwModifies,
    KwInstance,
    KwInit,
    KwNext,
    KwInvariant,
    KwAxiom,
    KwHyperinvariant,
    KwHyperaxiom,
    KwControl,
    KwBoolean,
    KwInteger,
    KwEnum,
    KwRecord,
    KwIf,
    KwElse,
    KwThen,
    KwCase,
    KwDefault,
    KwEsac,
    KwFor,
    KwIn,
    KwCall,
    KwSkip,
    KwAssert,
    KwAssume,
    KwHavoc,
    KwOld,
    KwTrue,
    KwFalse,
    KwForall,
    KwExists,
    KwWhile,
    /// `(`
    LeftParen,
    /// `)`
    RightParen,
    /// `{`
    LeftBrace,
    /// `}`
    RightBrace,
    /// `[`
    LeftBracket,
    /// `]`
    RightBracket,
    /// `,`
    Comma,
    /// `;`
    Semicolon,
    /// `:`
    Colon,
    /// `.`
    Dot,
    /// `'`
    Prime,
    /// `=`
    Assign,
    /// `==`
    Equal,
    /// `!=`
    NotEqual,
    /// `<==>`
    Iff,
    /// `==>`
    Implies,
    /// `&&`
    And,
    /// `||`
    Or,
    /// `!`
    Not,
    /// `<`
    Less,
    /// `<=`
    LessEqual,
    /// `>`
    Greater,
    /// `>=`
    GreaterEqual,
    /// `<_u`
    LessUnsigned,
    /// `<=_u`
    LessEqualUnsigned,
    /// `>_u`
    GreaterUnsigned,
    /// `>=_u`
    GreaterEqualUnsigned,
    /// `+`
    Plus,
    /// `-`
    Minus,
    /// `*`
    Star,
    /// `++`
    Concat,
    /// `&`
    Ampersand,
    /// `|`
    Bar,
    /// `^`
    Caret,
    /// `~`
    Tilde,
    /// `->`
    Arrow,
}
