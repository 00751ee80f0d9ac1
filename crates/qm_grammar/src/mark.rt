/// A word that groups others: one of `{`, `}`, `(`, `)`, `[` and `]`.
#[derive(Clone, Copy)]
pub enum Mark {
    OpenBrace,
    CloseBrace,
    OpenParenthesis,
    CloseParenthesis,
    OpenBracket,
    CloseBracket,
}

/// What the grammar sees of a token, beside its bytes.
#[derive(Clone, Copy)]
pub enum Sort {
    Mark(Mark),
    /// A word that is not a mark: a number, a texture or a word of a mapping.
    Name,
    /// What stands between two quotes.
    Quoted,
}
