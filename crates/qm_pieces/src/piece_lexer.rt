ghost use Rattle.std.specs.Prelude.{◌≡◌, ℕ, ◌+◌, ◌-◌, ◌<◌, ◌≤◌, ◌^◌, List, [], ◌∷◌, ◌++◌, Some, None, IfOk, IfSome, OnErr, length, take};
ghost use Rattle.qm_tokens.specs.Lexeme.{Lexeme, line_ends};
ghost use Rattle.qm_tokens.specs.Lexing.{IsLexingOf};
ghost use Rattle.qm_pieces.specs.LexingState.{state_at_start};
ghost use Rattle.qm_pieces.specs.TextSoFar.{lexemes_then};
ghost use Rattle.qm_pieces.specs.Lexed.{HasLexed};
ghost use Rattle.qm_pieces.specs.inner.Keeping.{AreBytesPassed};
ghost use Rattle.qm_pieces.specs.inner.OpenToken.{IsPlaceBetween};
ghost use Rattle.qm_pieces.specs.Pushing.{IsBytePushed, IsEndOf, owned_lexemes, end_lexing};

use crate::open_token::OpenToken;
use crate::owned_token::OwnedToken;
use crate::piece_fault::PieceFault;
use crate::place::Place;
use std::alloc::{AllocError, Global};
use std::marker::Model;

/// Reads the tokens of a text byte by byte, as they come. Contracts see it as the state of the text's lexing, or as
/// `None` once memory ran out.
#[derive(Drop)]
pub struct PieceLexer {
    token: OpenToken,
    /// How many bytes were pushed.
    offset: u64,
    /// How many of them end a line.
    line_ends: u64,
}

impl Model for PieceLexer {
    ghost use Rattle.std.specs.Prelude.{◌≤◌, Option};
    ghost use Rattle.qm_pieces.specs.LexingState.{LexingState};
    ghost use Rattle.qm_pieces.specs.inner.OpenToken.{mode_of, state_of};

    ghost Value = { Option LexingState };

    ghost view = { λ lexer. state_of (mode_of lexer.token) lexer.offset lexer.line_ends };

    ghost invariant = { λ lexer. lexer.line_ends ≤ lexer.offset };
}

impl PieceLexer {
    /// Before the first byte. It takes no memory.
    pub fn new(alloc: Global) -> PieceLexer
        ensures state { result ≡ Some state_at_start }
        ensures lexed { HasLexed [] [] result }
    {
        PieceLexer {
            token: OpenToken::new(alloc),
            offset: 0,
            line_ends: 0,
        }
    }

    /// Takes the next byte, and answers the token that it ends, or `None` where it ends none.
    ///
    /// # Errors
    ///
    /// Where memory runs out. Each further call answers the same.
    pub fn push(&mut self, byte: u8) -> Result<Option<OwnedToken>, AllocError>
        requires { IfSome self.old (λ state. state.offset < 2 ^ 64 - 1) }
        ensures pushed { IfOk result (λ token. IsBytePushed self.old byte token self.new) }
        ensures failed { OnErr result (self.new ≡ None) }

        // The tokens that have ended are those of before, with the one that this byte has ended.
        ensures lexed { IfOk result (λ token. (text : List ℕ) (ended : List Lexeme)
            → HasLexed text ended self.old
            → HasLexed (text ++ byte ∷ []) (ended ++ owned_lexemes token) self.new) }
    {
        if !self.token.is_known() {
            return Err(AllocError);
        }
        match self.token.take(byte, self.offset, self.line_ends + 1) {
            Ok(token) => {
                self.offset += 1;
                self.line_ends += line_ends(byte);
                Ok(token)
            }
            Err(error) => {
                self.token.fail();
                Err(error)
            }
        }
    }

    /// Takes the bytes at the beginning of these that neither end a token nor open one, nor end a comment, and answers how many
    /// they are.
    pub(crate) fn pass(&mut self, bytes: &[u8]) -> usize
        requires { IfSome self.old (λ state. state.offset + length bytes.now < 2 ^ 64) }
        ensures within { result ≤ length bytes.now }
        ensures passed { AreBytesPassed self.old (take result bytes.now) self.new }
    {
        let passed = self.token.kept_by(bytes);
        let place = Place {
            offset: self.offset,
            line_ends: self.line_ends,
        };
        let behind = place.behind(&bytes[..passed]);
        self.offset = behind.offset;
        self.line_ends = behind.line_ends;
        passed
    }

    /// What the end of the text gives: the last word, or `None` where no token is open.
    ///
    /// # Errors
    ///
    /// `UnclosedQuote` where a quote is open. `Memory` where memory runs out, or ran out before.
    pub fn finish(self) -> Result<Option<OwnedToken>, PieceFault>
        ensures end { IsEndOf self result }

        // The text has the tokens that have ended, and this end.
        ensures lexing { (text : List ℕ) (ended : List Lexeme) → HasLexed text ended self
            → IfSome (end_lexing result) (λ last. IsLexingOf text (lexemes_then ended last)) }
    {
        let PieceLexer { token, offset, .. } = self;
        token.finish(offset)
    }

    /// Where it stands, if nothing is open there.
    pub(crate) fn place_between(&self) -> Option<Place>
        ensures { IfSome result (λ place. IsPlaceBetween place self.now) }
    {
        if !self.token.is_nothing() {
            return None;
        }
        Some(Place {
            offset: self.offset,
            line_ends: self.line_ends,
        })
    }

    /// Goes on from a place at which nothing is open.
    pub(crate) fn go_on_from(&mut self, place: Place)
        requires { place.line_ends ≤ place.offset }
        ensures { IsPlaceBetween place self.new }
    {
        self.token.leave();
        self.offset = place.offset;
        self.line_ends = place.line_ends;
    }

    /// Takes nothing more.
    pub(crate) fn fail(&mut self)
        ensures { self.new ≡ None }
    {
        self.token.fail();
    }

    /// How many bytes were pushed.
    pub(crate) fn offset(&self) -> u64
        ensures { IfSome self.now (λ state. result ≡ state.offset) }
    {
        self.offset
    }

    /// The line behind them.
    pub(crate) fn line(&self) -> u64
        requires { IfSome self.now (λ state. state.offset < 2 ^ 64 - 1) }
        ensures { IfSome self.now (λ state. result ≡ state.line) }
    {
        self.line_ends.saturating_add(1)
    }
}

// How many lines end with a byte.
fn line_ends(byte: u8) -> u64
    ensures value { result ≡ line_ends (byte ∷ []) }
    ensures within { result ≤ 1 }
{
    if byte == b'\n' { 1 } else { 0 }
}
