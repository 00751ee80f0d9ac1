ghost use Rattle.std.specs.Prelude.{◌≡◌};
ghost use Rattle.qm_grammar.specs.Symbol.{mark_of_byte, mark_of, sort_of};
ghost use Rattle.qm_grammar.specs.inner.Machine.{mark_byte};
ghost use Rattle.qm_map.specs.inner.DueMark.{is_due};

use qm_grammar::{Mark, Sort};
use qm_tokens::TokenKind;

#[tactic(auto, unfolding(qm_grammar::specs::Symbol::mark_of_byte))]
fn mark_of_byte(byte: u8) -> Option<Mark>
    ensures { result ≡ mark_of_byte byte }
{
    match byte {
        b'{' => Some(Mark::OpenBrace),
        b'}' => Some(Mark::CloseBrace),
        b'(' => Some(Mark::OpenParenthesis),
        b')' => Some(Mark::CloseParenthesis),
        b'[' => Some(Mark::OpenBracket),
        b']' => Some(Mark::CloseBracket),
        _ => None,
    }
}

/// The mark that a word is, if it is one.
fn mark_of(word: &[u8]) -> Option<Mark>
    ensures { result ≡ mark_of word.now }
{
    match word {
        [byte] => mark_of_byte(*byte),
        _ => None,
    }
}

/// The sort of a token of this kind with these bytes.
#[tactic(auto, unfolding(qm_grammar::specs::Symbol::sort_of))]
pub(crate) fn sort_of(kind: TokenKind, bytes: &[u8]) -> Sort
    ensures { result ≡ sort_of (record { kind = kind; bytes = bytes.now }) }
{
    match kind {
        TokenKind::Quoted => Sort::Quoted,
        TokenKind::Word => match mark_of(bytes) {
            Some(mark) => Sort::Mark(mark),
            None => Sort::Name,
        },
    }
}

/// The byte of a mark.
fn mark_byte(mark: Mark) -> u8
    ensures { result ≡ mark_byte mark }
{
    match mark {
        Mark::OpenBrace => b'{',
        Mark::CloseBrace => b'}',
        Mark::OpenParenthesis => b'(',
        Mark::CloseParenthesis => b')',
        Mark::OpenBracket => b'[',
        Mark::CloseBracket => b']',
    }
}

/// Whether a token of this kind with these bytes is this mark.
#[tactic(auto, unfolding(qm_grammar::specs::Symbol::sort_of))]
pub(crate) fn is_mark(due: Mark, kind: TokenKind, bytes: &[u8]) -> bool
    ensures { result ≡ is_due due (sort_of (record { kind = kind; bytes = bytes.now })) }
{
    match (kind, bytes) {
        (TokenKind::Word, [byte]) => *byte == mark_byte(due),
        _ => false,
    }
}
