ghost use Rattle.std.specs.Prelude.{◌≡◌, ◌≢◌, ◌≤◌, ◌+◌, [], length, None, Ok, Err, IfOk, IfErr, Result};
ghost use Rattle.qm_tokens.specs.Lexeme.{lexeme_of, quote_length};
ghost use Rattle.qm_tokens.specs.Lexing.{fault_line};
ghost use Rattle.qm_mapfile.specs.declared.entity.MapFile.{MapFile};
ghost use Rattle.qm_grammar.specs.declared.fault.MapFault.{MapFault};
ghost use Rattle.qm_grammar.specs.Faults.{fault_of};
ghost use Rattle.qm_grammar.specs.Prefix.{between_entities};
ghost use Rattle.qm_grammar.specs.inner.Machine.{refused_at, closed_by_end, ended, meaning_of};
ghost use Rattle.qm_grammar.specs.Meaning.{Means, IsMapText, IsFaultText};
ghost use Rattle.qm_grammar.specs.Valid.{IsValidMap};
ghost use Rattle.qm_map.specs.inner.Taking.{IsTaken};

use crate::lines::{last_line, line_at};
use crate::reader::Reader;
use crate::stop::Stop;
use qm_grammar::{Context, MapFault, Refusal, TEXT_LIMIT};
use qm_lex::Lexer;
use qm_mapfile::MapFile;
use qm_tokens::{LexFault, Token, TokenKind};
use std::alloc::Global;

/// The fault of a refused token on a line.
pub fn fault_of(reason: Refusal, line: u64) -> MapFault
    ensures { result ≡ fault_of reason line }
{
    match reason {
        Refusal::Unexpected => MapFault::Unexpected { line },
        Refusal::BadNumber => MapFault::BadNumber { line },
        Refusal::Fraction => MapFault::Fraction { line },
        Refusal::CoordinateRange => MapFault::CoordinateRange { line },
        Refusal::NoNormal => MapFault::NoNormal { line },
        Refusal::PlaneTooFine => MapFault::PlaneTooFine { line },
        Refusal::NoFaces => MapFault::NoFaces { line },
        Refusal::BadOrigin => MapFault::BadOrigin { line },
    }
}

/// How many quotes stand behind a token.
fn quote_length(kind: TokenKind) -> u64
    ensures { result ≡ quote_length kind }
{
    match kind {
        TokenKind::Word => 0,
        TokenKind::Quoted => 1,
    }
}

/// The fault of a refused token, unless the text is too long before the token ends.
fn refused_at(text: &[u8], reason: Refusal, token: Token) -> MapFault
    requires { token.end + quote_length token.kind ≤ length text.now }
    ensures { result ≡ refused_at text.now reason (lexeme_of text.now token) }
{
    let end = token.end + quote_length(token.kind);
    if end > TEXT_LIMIT as u64 {
        MapFault::TextTooLong {
            line: line_at(text, TEXT_LIMIT),
        }
    } else {
        fault_of(reason, token.line)
    }
}

/// Takes a token of the text.
fn take(reader: &mut Reader, text: &[u8], token: Token) -> Result<(), MapFault>
    requires ordered { token.start ≤ token.end }
    requires within { token.end + quote_length token.kind ≤ length text.now }
    ensures { IsTaken text.now reader.old (lexeme_of text.now token) reader.new result }
{
    let bytes = &text[token.start as usize..token.end as usize];
    match reader.accept(token.kind, bytes) {
        Ok(()) => Ok(()),
        Err(Stop::Refused(reason)) => Err(refused_at(text, reason, token)),
        Err(Stop::Memory) => Err(MapFault::Memory),
    }
}

/// What the end of the text makes of what was read, where no quote is open.
fn closed_by_end(text: &[u8], reader: Reader) -> Result<MapFile, MapFault>
    ensures { result ≡ closed_by_end text.now None reader }
{
    if reader.context() != Context::Outside {
        drop(reader);
        return Err(MapFault::EndInside {
            line: last_line(text),
        });
    }
    let map = reader.into_map();
    if map.entities.is_empty() {
        return Err(MapFault::NoEntity {
            line: last_line(text),
        });
    }
    Ok(map)
}

/// What the end of the text makes of what was read; a quote may be open on a line.
fn ended(text: &[u8], unclosed: Option<u64>, reader: Reader) -> Result<MapFile, MapFault>
    ensures { result ≡ ended text.now unclosed (Ok reader) }
{
    if text.len() > TEXT_LIMIT {
        drop(reader);
        return Err(MapFault::TextTooLong {
            line: line_at(text, TEXT_LIMIT),
        });
    }
    match unclosed {
        Some(line) => {
            drop(reader);
            Err(MapFault::UnclosedQuote { line })
        }
        None => closed_by_end(text, reader),
    }
}

/// The line of a quote that is not closed.
fn quote_line(fault: LexFault) -> u64
    ensures { result ≡ fault_line fault }
{
    match fault {
        LexFault::UnclosedQuote { line } => line,
    }
}

/// Takes the tokens of a text one by one. The answer is the line of the quote that is not closed, if there is one. It stands by
/// itself, with the reader behind a reference, so that its loop has the registers.
#[inline(never)]
fn take_tokens(reader: &mut Reader, text: &[u8]) -> Result<Option<u64>, MapFault>
    requires { reader.old ≡ between_entities [] }
    ensures over { IfOk result (λ unclosed. meaning_of text.now ≡ ended text.now unclosed (Ok reader.new)) }
    ensures fault { IfErr result (λ fault. fault ≢ MapFault.Memory → meaning_of text.now ≡ Err fault) }
{
    let mut lexer = Lexer::new(text);
    'tokens: loop {
        match lexer.next() {
            Ok(Some(token)) => {
                if let Err(fault) = take(reader, text, token) {
                    return Err(fault);
                }
            }
            Ok(None) => return Ok(None),
            Err(fault) => return Ok(Some(quote_line(fault))),
        }
    }
}

/// Takes the tokens of a text, and then its end.
fn meaning_of(alloc: Global, text: &[u8]) -> Result<MapFile, MapFault>
    ensures { result ≢ Err MapFault.Memory → result ≡ meaning_of text.now }
{
    let Ok(mut reader) = Reader::new(alloc) else {
        return Err(MapFault::Memory);
    };
    match take_tokens(&mut reader, text) {
        Ok(unclosed) => ended(text, unclosed, reader),
        Err(fault) => {
            drop(reader);
            Err(fault)
        }
    }
}

/// The map that a text means, or its first fault.
///
/// # Errors
///
/// The fault that stands first in the text, with its line. `Memory` where memory runs out.
pub fn parse(alloc: Global, text: &[u8]) -> Result<MapFile, MapFault>
    // The text means the map.
    ensures meant { IfOk result (λ map. IsMapText text.now map) }

    // The fault is the first one of the text.
    ensures fault { IfErr result (λ fault. fault ≢ MapFault.Memory → IsFaultText text.now fault) }

    // The text means nothing else.
    ensures only { result ≢ Err MapFault.Memory → (other : Result MapFile MapFault) → Means text.now other → other ≡ result }

    ensures valid { IfOk result IsValidMap }
{
    meaning_of(alloc, text)
}
