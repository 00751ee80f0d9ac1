/// What a token is: a word, or what stands between two quotes.
#[derive(Clone, Copy)]
pub enum TokenKind {
    Word,
    Quoted,
}

/// A token of a text.
#[derive(Clone, Copy)]
pub struct Token {
    pub kind: TokenKind,
    /// The offset of the token's first byte. The quotes of a quoted token are no bytes of it.
    pub start: u64,
    /// The offset after the token's last byte.
    pub end: u64,
    /// The line on which the token begins, a quoted one with its opening quote. Lines count from 1.
    pub line: u64,
}

/// Why a text has no further token, though it is not at its end.
#[derive(Clone, Copy)]
pub enum LexFault {
    /// A quote opens a token and is never closed.
    UnclosedQuote {
        /// The line of the quote. Lines count from 1.
        line: u64,
    },
}
