ghost use Rattle.std.specs.Prelude.{◌≡◌, ◌≢◌, ◌+◌, ◌-◌, ◌<◌, ◌≤◌, ◌^◌, ℕ, List, [], Err, IsTrue, IsSome, IfOk, OnOk, length};
ghost use Rattle.qm_grammar.specs.declared.fault.MapFault.{MapFault};
ghost use Rattle.qm_grammar.specs.Faults.{text_limit};
ghost use Rattle.qm_grammar.specs.Prefix.{between_entities};
ghost use Rattle.qm_pieces.specs.ReadSoFar.{prefix_so_far};
ghost use Rattle.qm_pieces.specs.inner.Accepting.{IsAccepted, IsTokenAccepted, closed_on, end_answer, limit_fault};
ghost use Rattle.qm_pieces.specs.inner.Scanning.{IsReadBetween, IsScannedInto};

use crate::owned_token::OwnedToken;
use crate::whole_tokens::{accept, take_whole_tokens};
use qm_grammar::{Context, MapFault};
use qm_map::{MapFile, Reader};
use qm_tokens::TokenKind;
use std::alloc::{AllocError, Global};

/// Takes the tokens of a map one by one. It takes no memory before the first token, or the first piece in which
/// tokens may end.
#[derive(Drop)]
pub(crate) struct LazyReader {
    alloc: Global,
    reader: Option<Reader>,
}

impl LazyReader {
    /// Before the first token.
    pub(crate) fn new(alloc: Global) -> LazyReader
        ensures { prefix_so_far result.reader ≡ between_entities [] }
    {
        LazyReader {
            alloc,
            reader: None,
        }
    }

    /// Takes the next token, if there is one.
    pub(crate) fn accept_token(&mut self, token: Option<OwnedToken>) -> Result<(), MapFault>
        ensures { IsTokenAccepted (prefix_so_far self.old.reader) token (prefix_so_far self.new.reader) result }
    {
        match token {
            Some(token) => self.accept(token.kind, token.text.as_slice(), token.line),
            None => Ok(()),
        }
    }

    /// Takes the next token, of this kind and with these bytes, which begins on a line.
    pub(crate) fn accept(
        &mut self,
        kind: TokenKind,
        bytes: &[u8],
        line: u64,
    ) -> Result<(), MapFault>
        ensures { IsAccepted (prefix_so_far self.old.reader) (record { kind = kind; bytes = bytes.now }) line (prefix_so_far self.new.reader) result }
    {
        if self.wake().is_err() {
            return Err(MapFault::Memory);
        }
        match &mut self.reader {
            Some(reader) => accept(reader, kind, bytes, line),
            None => unreachable!(),
        }
    }

    /// Takes the tokens that end within a piece, which begins between two tokens and behind so many line ends. Answers how
    /// many bytes of the piece were taken.
    pub(crate) fn take_whole_tokens(
        &mut self,
        piece: &[u8],
        line_ends: u64,
    ) -> Result<usize, MapFault>
        requires { line_ends + length piece.now < 2 ^ 64 - 1 }
        ensures within { IfOk result (λ taken. taken ≤ length piece.now) }
        ensures scanned { (text : List ℕ) (offset : ℕ)
            → IsReadBetween text offset (line_ends + 1) (prefix_so_far self.old.reader)
            → offset + length piece.now ≤ text_limit
            → IsScannedInto text piece.now offset line_ends (prefix_so_far self.new.reader) result }
    {
        if self.wake().is_err() {
            return Err(MapFault::Memory);
        }
        match &mut self.reader {
            Some(reader) => take_whole_tokens(reader, piece, line_ends),
            None => unreachable!(),
        }
    }

    /// Takes the memory that a reader needs.
    fn wake(&mut self) -> Result<(), AllocError>
        ensures awake { OnOk result (IsSome self.new.reader) }
        ensures prefix { prefix_so_far self.new.reader ≡ prefix_so_far self.old.reader }
    {
        if self.reader.is_none() {
            self.reader = Some(Reader::new(self.alloc)?);
        }
        Ok(())
    }

    /// The first fault of a text that goes on past its limit on a line, where the byte behind the limit ends this token,
    /// if it ends one.
    pub(crate) fn limit_fault(&mut self, token: Option<OwnedToken>, line: u64) -> MapFault
        ensures { result ≢ MapFault.Memory → result ≡ limit_fault (prefix_so_far self.old.reader) token line }
    {
        let Some(token) = token else {
            return MapFault::TextTooLong { line };
        };
        match token.kind {
            TokenKind::Word => match self.accept(token.kind, token.text.as_slice(), token.line) {
                Ok(()) => MapFault::TextTooLong { line },
                Err(fault) => fault,
            },
            TokenKind::Quoted => MapFault::TextTooLong { line },
        }
    }

    /// Takes the last token, if there is one, and then the end of the text on a line.
    pub(crate) fn finish(self, last: Option<OwnedToken>, line: u64) -> Result<MapFile, MapFault>
        ensures { result ≢ Err MapFault.Memory → result ≡ end_answer (prefix_so_far self.reader) last line }
    {
        let mut reader = self;
        reader.accept_token(last)?;
        reader.close(line)
    }

    /// Takes the end of the text on a line.
    fn close(self, line: u64) -> Result<MapFile, MapFault>
        ensures { result ≡ closed_on line (prefix_so_far self.reader) }
    {
        let Some(reader) = self.reader else {
            return Err(MapFault::NoEntity { line });
        };
        if reader.context() != Context::Outside {
            return Err(MapFault::EndInside { line });
        }
        let map = reader.into_map();
        if map.entities.is_empty() {
            return Err(MapFault::NoEntity { line });
        }
        Ok(map)
    }
}
