ghost use Rattle.std.specs.Prelude.{◌≡◌, ℕ, ◌+◌, ◌-◌, ◌≤◌, ◌<◌, ◌^◌, ◌∷◌, ◌↔◌, [], IsTrue, IfNone, IfSome, MatchResult, drop, length, slice_index};
ghost use Rattle.qm_tokens.specs.Lexeme.{line_ends};
ghost use Rattle.qm_tokens.specs.Lexing.{unclosed_on, fault_line};
ghost use Rattle.qm_tokens.specs.inner.Modes.{read, between, in_comment, in_quote};
ghost use Rattle.qm_lex.specs.inner.Scan.{IsPositionIn, IsPast, StartsToken, IsWordEnd, IsClosedAt, IsFoundAt, left_at};

use qm_tokens::{LexFault, Token, TokenKind};

/// Where a reader stands in a text: an offset, and the line there.
#[derive(Clone, Copy)]
pub struct Position {
    pub offset: usize,
    pub line: u64,
}

/// A token, and the position behind it.
#[derive(Clone, Copy)]
pub struct Found {
    pub token: Token,
    pub behind: Position,
}

// The line behind a byte that stands on a line.
fn line_behind(line: u64, byte: u8) -> u64
    requires { line < 2 ^ 64 - 1 }
    ensures { result ≡ line + line_ends (byte ∷ []) }
{
    if byte == b'\n' { line + 1 } else { line }
}

// Whether two slashes stand at an offset.
fn opens_comment(text: &[u8], offset: usize) -> bool
    requires { offset < length text.now }
    ensures { IsTrue result ↔ ((slice_index text.now offset ≡ 47) × (slice_index text.now (offset + 1) ≡ 47)) }
{
    if text[offset] != b'/' {
        return false;
    }
    match text.get(offset + 1) {
        Some(next) => *next == b'/',
        None => false,
    }
}

// The offset of the line end that ends a comment, or the text's length.
fn comment_end(text: &[u8], from: usize) -> usize
    requires { from ≤ length text.now }
    ensures further { from ≤ result }
    ensures in_text { result ≤ length text.now }
    ensures passed { (line : ℕ)
        → read in_comment from line (drop from text.now)
        ≡ read between result line (drop result text.now) }
{
    for offset in from..text.len() {
        let candidate = text[offset];
        if candidate == b'\n' {
            return offset;
        }
    }
    text.len()
}

// The position behind the blank byte or the comment that stands at a position, if one stands there.
fn behind_gap(text: &[u8], position: Position) -> Option<Position>
    requires in_text { position.offset < length text.now }
    requires line_bound { position.line ≤ position.offset + 1 }
    ensures gap { IfSome result (IsPast text.now position) }
    ensures token { IfNone result (StartsToken text.now position.offset) }
{
    let offset = position.offset;
    let line = position.line;
    let byte = text[offset];
    // most blanks are spaces, which end no line
    if byte == b' ' {
        return Some(Position {
            offset: offset + 1,
            line,
        });
    }
    if byte <= b' ' {
        return Some(Position {
            offset: offset + 1,
            line: line_behind(line, byte),
        });
    }
    if opens_comment(text, offset) {
        return Some(Position {
            offset: comment_end(text, offset + 2),
            line,
        });
    }
    None
}

/// The position of the next token, or the end of the text.
pub fn gap_end(text: &[u8], from: Position) -> Position
    requires { IsPositionIn text.now from }
    ensures position { IsPositionIn text.now result }
    ensures same_left { left_at text.now from ≡ left_at text.now result }
    ensures token { result.offset < length text.now → StartsToken text.now result.offset }
{
    let mut position = from;
    while position.offset < text.len() {
        match behind_gap(text, position) {
            Some(next) => position = next,
            None => return position,
        }
    }
    position
}

// The offset behind the word that starts at an offset.
fn word_end(text: &[u8], start: usize) -> usize
    requires { start < length text.now }
    ensures { IsWordEnd text.now start result }
{
    for offset in start + 1..text.len() {
        let next = text[offset];
        if next <= b' ' {
            return offset;
        }
    }
    text.len()
}

// The position of the next quote, if there is one.
fn closing_quote(text: &[u8], from: Position) -> Option<Position>
    requires { IsPositionIn text.now from }
    ensures closed { IfSome result (IsClosedAt text.now from) }
    ensures unclosed { IfNone result
        (read (in_quote [] from.offset from.line) from.offset from.line (drop from.offset text.now)
        ≡ unclosed_on from.line) }
{
    let mut line = from.line;
    for offset in from.offset..text.len() {
        let byte = text[offset];
        if byte == b'"' {
            return Some(Position { offset, line });
        }
        line = line_behind(line, byte);
    }
    None
}

// The word that starts at a position.
fn word_at(text: &[u8], position: Position) -> Found
    requires position { IsPositionIn text.now position }
    requires token { StartsToken text.now position.offset }
    requires no_quote { slice_index text.now position.offset ≡ 34 → ⊥ }
    ensures { IsFoundAt text.now position result }
{
    let end = word_end(text, position.offset);
    Found {
        token: Token {
            kind: TokenKind::Word,
            start: position.offset as u64,
            end: end as u64,
            line: position.line,
        },
        behind: Position {
            offset: end,
            line: position.line,
        },
    }
}

/// The token that starts at a position, or the fault of its quote.
pub fn token_at(text: &[u8], position: Position) -> Result<Found, LexFault>
    requires position { IsPositionIn text.now position }
    requires token { StartsToken text.now position.offset }
    ensures { MatchResult result
        (IsFoundAt text.now position)
        (λ fault. left_at text.now position ≡ unclosed_on (fault_line fault)) }
{
    if text[position.offset] != b'"' {
        return Ok(word_at(text, position));
    }
    let open = Position {
        offset: position.offset + 1,
        line: position.line,
    };
    match closing_quote(text, open) {
        Some(close) => Ok(Found {
            token: Token {
                kind: TokenKind::Quoted,
                start: open.offset as u64,
                end: close.offset as u64,
                line: open.line,
            },
            behind: Position {
                offset: close.offset + 1,
                line: close.line,
            },
        }),
        None => Err(LexFault::UnclosedQuote { line: open.line }),
    }
}
