ghost use Rattle.std.specs.Prelude.{◌≡◌, ℕ, List, ◌+◌, ◌-◌, ◌<◌, ◌≤◌, ◌^◌, length, slice_index, IfOk};
ghost use Rattle.qm_grammar.specs.Faults.{text_limit};
ghost use Rattle.qm_pieces.specs.inner.Accepting.{IsAccepted};
ghost use Rattle.qm_pieces.specs.inner.Scanning.{IsReadBetween, IsScannedInto};

use qm_grammar::MapFault;
use qm_lex::Lexer;
use qm_map::{Reader, Stop, fault_of};
use qm_tokens::TokenKind;

/// Takes the tokens that end within a piece, which begins between two tokens and behind so many line ends. Answers how many
/// bytes of the piece were taken: up to the end of the last of these tokens, or up to a line end behind it where only blanks and
/// comments stand between.
pub(crate) fn take_whole_tokens(
    reader: &mut Reader,
    piece: &[u8],
    line_ends: u64,
) -> Result<usize, MapFault>
    requires { line_ends + length piece.now < 2 ^ 64 - 1 }
    ensures within { IfOk result (λ taken. taken ≤ length piece.now) }
    ensures scanned { (text : List ℕ) (offset : ℕ)
        → IsReadBetween text offset (line_ends + 1) reader.old
        → offset + length piece.now ≤ text_limit
        → IsScannedInto text piece.now offset line_ends reader.new result }
{
    take_ended_tokens(reader, &piece[..last_blank(piece)], line_ends)
}

/// The same of a piece whose last byte is a blank, so that each of its tokens ends within it. It is no part of its caller, so
/// that its loop has the registers.
#[inline(never)]
fn take_ended_tokens(reader: &mut Reader, piece: &[u8], line_ends: u64) -> Result<usize, MapFault>
    requires blank { 0 < length piece.now → slice_index piece.now (length piece.now - 1) ≤ 32 }
    requires few { line_ends + length piece.now < 2 ^ 64 - 1 }
    ensures within { IfOk result (λ taken. taken ≤ length piece.now) }
    ensures scanned { (text : List ℕ) (offset : ℕ)
        → IsReadBetween text offset (line_ends + 1) reader.old
        → offset + length piece.now ≤ text_limit
        → IsScannedInto text piece.now offset line_ends reader.new result }
{
    let mut lexer = Lexer::new(piece);
    let mut taken = 0;
    'scan: loop {
        match lexer.next() {
            Ok(Some(token)) => {
                let end = token.end as usize;
                let bytes = &piece[token.start as usize..end];
                let line = line_ends + token.line;
                match accept(reader, token.kind, bytes, line) {
                    Ok(()) => taken = end + 1,
                    Err(fault) => return Err(fault),
                }
            }
            Ok(None) => return Ok(last_line(piece, taken)),
            Err(_) => return Ok(taken),
        }
    }
}

/// Takes a token of this kind and with these bytes, which begins on a line.
#[inline(always)]
pub(crate) fn accept(
    reader: &mut Reader,
    kind: TokenKind,
    bytes: &[u8],
    line: u64,
) -> Result<(), MapFault>
    ensures { IsAccepted reader.old (record { kind = kind; bytes = bytes.now }) line reader.new result }
{
    match reader.accept(kind, bytes) {
        Ok(()) => Ok(()),
        Err(Stop::Refused(reason)) => Err(fault_of(reason, line)),
        Err(Stop::Memory) => Err(MapFault::Memory),
    }
}

/// The offset behind the last blank of a piece, or 0 where it has none.
fn last_blank(piece: &[u8]) -> usize
    ensures within { result ≤ length piece.now }
    ensures blank { 0 < result → slice_index piece.now (result - 1) ≤ 32 }
{
    let mut end = piece.len();
    while end > 0 {
        if piece[end - 1] <= b' ' {
            return end;
        }
        end -= 1;
    }
    0
}

/// The offset behind the last line end of a piece from an offset on, or that offset where no line ends.
fn last_line(piece: &[u8], from: usize) -> usize
    requires { from ≤ length piece.now }
    ensures further { from ≤ result }
    ensures within { result ≤ length piece.now }
    ensures ends { from < result → slice_index piece.now (result - 1) ≡ 10 }
{
    let mut end = piece.len();
    while end > from {
        if piece[end - 1] == b'\n' {
            return end;
        }
        end -= 1;
    }
    from
}
