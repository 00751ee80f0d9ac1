ghost use Rattle.std.specs.Prelude.{◌≡◌, ◌+◌, ◌≤◌, [], All, IfOk, IfErr, IfSome, MatchOption, length};
ghost use Rattle.qm_tokens.specs.Lexeme.{StandsIn, lexeme_of, quote_length};
ghost use Rattle.qm_tokens.specs.Lexing.{Lexing, IsLexingOf, nothing, lexeme_then, unclosed_on, fault_line};

use crate::scan::{Position, gap_end, token_at};
use qm_tokens::{LexFault, Token};
use std::marker::Model;

/// Reads the tokens of a text, one after another. Contracts see it as the text, with what it gives from here on: the
/// lexemes that are left, and the line of the quote that is not closed, if there is one.
#[derive(Drop)]
pub struct Lexer<'a> {
    text: &'a [u8],
    position: Position,
}

impl<'a> Model for Lexer<'a> {
    ghost use Rattle.qm_tokens.specs.Reading.{Reading};

    ghost Value = { Reading };

    ghost use Rattle.qm_lex.specs.inner.Scan.{IsPositionIn, reading_at};

    ghost view = { λ lexer. reading_at lexer.text.now lexer.position };

    ghost invariant = { λ lexer. IsPositionIn lexer.text.now lexer.position };
}

impl Lexer<'_> {
    /// A reader at the beginning of a text. The text has one list of lexemes by the rules of its pieces, and these
    /// are left.
    pub fn new(text: &[u8]) -> Lexer<'_>
        ensures text { result.text ≡ text.now }
        ensures lexing { IsLexingOf text.now result.left }
        ensures only { (other : Lexing) → IsLexingOf text.now other → other ≡ result.left }
        ensures within { All (StandsIn text.now) result.left.lexemes }
    {
        Lexer {
            text,
            position: Position { offset: 0, line: 1 },
        }
    }

    /// The next token, or `None` at the end.
    ///
    /// # Errors
    ///
    /// `UnclosedQuote` where only a quote that is not closed is left. Each further call answers the same.
    pub fn next(&mut self) -> Result<Option<Token>, LexFault>
        ensures text { self.new.text ≡ self.old.text }
        ensures token { IfOk result (λ answer. MatchOption answer
            (self.old.left ≡ nothing)
            (λ token. self.old.left ≡ lexeme_then (lexeme_of self.old.text token) self.new.left)) }
        ensures fault { IfErr result (λ fault. self.old.left ≡ unclosed_on (fault_line fault)) }
        ensures over { self.old.left.lexemes ≡ [] → self.new ≡ self.old }

        // A token can be cut out of the text: a quoted one has a quote on either side.
        ensures within { IfOk result (λ answer. IfSome answer (λ token.
            (token.start ≤ token.end) × (token.end + quote_length token.kind ≤ length self.old.text))) }
    {
        let position = gap_end(self.text, self.position);
        self.position = position;
        if position.offset == self.text.len() {
            return Ok(None);
        }
        match token_at(self.text, position) {
            Ok(found) => {
                self.position = found.behind;
                Ok(Some(found.token))
            }
            Err(fault) => Err(fault),
        }
    }
}
