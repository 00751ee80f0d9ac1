ghost use Rattle.std.specs.Prelude.{◌≡◌};
ghost use Rattle.qm_grammar.specs.inner.Machine.{behind_first, behind_word, behind_bracket};

use qm_grammar::{Mark, Slot};

/// What is left of a face behind its first token.
static BEHIND_FIRST: [Slot; 16] = [
    Slot::Coordinate,
    Slot::Coordinate,
    Slot::Coordinate,
    Slot::Mark(Mark::CloseParenthesis),
    Slot::Mark(Mark::OpenParenthesis),
    Slot::Coordinate,
    Slot::Coordinate,
    Slot::Coordinate,
    Slot::Mark(Mark::CloseParenthesis),
    Slot::Mark(Mark::OpenParenthesis),
    Slot::Coordinate,
    Slot::Coordinate,
    Slot::Coordinate,
    Slot::Mark(Mark::CloseParenthesis),
    Slot::Texture,
    Slot::FirstOfMapping,
];

/// What is left of a mapping behind its first word.
static BEHIND_WORD: [Slot; 4] = [Slot::Word, Slot::Word, Slot::Word, Slot::Word];

/// What is left of a mapping behind its first bracket.
static BEHIND_BRACKET: [Slot; 14] = [
    Slot::Word,
    Slot::Word,
    Slot::Word,
    Slot::Word,
    Slot::Mark(Mark::CloseBracket),
    Slot::Mark(Mark::OpenBracket),
    Slot::Word,
    Slot::Word,
    Slot::Word,
    Slot::Word,
    Slot::Mark(Mark::CloseBracket),
    Slot::Word,
    Slot::Word,
    Slot::Word,
];

/// What is left of a face behind its first token.
pub(crate) fn behind_first() -> &'static [Slot]
    ensures { result.now ≡ behind_first }
{
    &BEHIND_FIRST
}

/// What is left of a mapping behind its first word.
pub(crate) fn behind_word() -> &'static [Slot]
    ensures { result.now ≡ behind_word }
{
    &BEHIND_WORD
}

/// What is left of a mapping behind its first bracket.
pub(crate) fn behind_bracket() -> &'static [Slot]
    ensures { result.now ≡ behind_bracket }
{
    &BEHIND_BRACKET
}
