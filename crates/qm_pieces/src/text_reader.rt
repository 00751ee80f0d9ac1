ghost use Rattle.std.specs.Prelude.{◌≢◌, ◌<◌, ◌≤◌, ℕ, List, [], ◌∷◌, ◌++◌, length, take, Err, IfOk, IfSome};
ghost use Rattle.qm_grammar.specs.declared.fault.MapFault.{MapFault};
ghost use Rattle.qm_grammar.specs.Faults.{text_limit};
ghost use Rattle.qm_grammar.specs.Meaning.{Means};
ghost use Rattle.qm_pieces.specs.Certain.{IsCertain};
ghost use Rattle.qm_pieces.specs.ReadSoFar.{IsReadOf};
ghost use Rattle.qm_pieces.specs.inner.Accepting.{IsReadOn};
ghost use Rattle.qm_pieces.specs.inner.Scanning.{IsReadInto};

use crate::lazy_reader::LazyReader;
use crate::piece_fault::PieceFault;
use crate::piece_lexer::PieceLexer;
use qm_grammar::{MapFault, TEXT_LIMIT};
use qm_map::MapFile;
use std::alloc::Global;
use std::marker::Model;

/// Reads a text in pieces, up to its first certain fault. Contracts see it as what it has read so far.
#[derive(Drop)]
pub(crate) struct TextReader {
    lexer: PieceLexer,
    tokens: LazyReader,
}

impl Model for TextReader {
    ghost use Rattle.std.specs.Prelude.{◌≤◌, IfSome};
    ghost use Rattle.qm_grammar.specs.Faults.{text_limit};
    ghost use Rattle.qm_pieces.specs.ReadSoFar.{ReadSoFar, prefix_so_far};

    ghost Value = { ReadSoFar };

    ghost view = { λ r. record { lexer = r.lexer; prefix = prefix_so_far r.tokens.reader } };

    ghost invariant = { λ r. IfSome r.lexer (λ state. state.offset ≤ text_limit) };
}

impl TextReader {
    /// Before the first byte. It takes no memory.
    pub(crate) fn new(alloc: Global) -> TextReader
        ensures { IsReadOf [] result }
    {
        TextReader {
            lexer: PieceLexer::new(alloc),
            tokens: LazyReader::new(alloc),
        }
    }

    /// Takes the bytes of a piece, up to one that makes a fault certain. Those of a comment are passed as one; single bytes are
    /// taken only while a token is open that the piece before has begun, and behind the last token that ends within this one.
    pub(crate) fn take_piece(&mut self, piece: &[u8]) -> Result<(), MapFault>
        ensures { (text : List ℕ) → IsReadOf text self.old → IsReadOn (text ++ piece.now) self.new result }
    {
        let begun = match self.take_open(piece) {
            Ok(begun) => begun,
            Err(fault) => return Err(fault),
        };
        let rest = &piece[begun..];
        let taken = match self.take_tokens(rest) {
            Ok(taken) => taken,
            Err(fault) => return Err(fault),
        };
        self.take_bytes(&rest[taken..])
    }

    /// Takes the bytes of a piece while something is open, and answers how many were taken.
    fn take_open(&mut self, piece: &[u8]) -> Result<usize, MapFault>
        ensures within { IfOk result (λ taken. taken ≤ length piece.now) }
        ensures read { (text : List ℕ) → IsReadOf text self.old → IsReadInto text piece.now self.new result }
    {
        let mut taken = 0;
        while taken < piece.len() {
            if self.lexer.place_between().is_some() {
                return Ok(taken);
            }
            match self.take_some(&piece[taken..]) {
                Ok(count) => taken += count,
                Err(fault) => return Err(fault),
            }
        }
        Ok(taken)
    }

    /// Takes the tokens that end within a piece, where nothing is open and the piece is within the limit, and answers how many
    /// bytes were taken.
    fn take_tokens(&mut self, piece: &[u8]) -> Result<usize, MapFault>
        ensures within { IfOk result (λ taken. taken ≤ length piece.now) }
        ensures read { (text : List ℕ) → IsReadOf text self.old → IsReadInto text piece.now self.new result }
    {
        let Some(place) = self.lexer.place_between() else {
            return Ok(0);
        };
        if place.offset + piece.len() as u64 > TEXT_LIMIT as u64 {
            return Ok(0);
        }
        match self.tokens.take_whole_tokens(piece, place.line_ends) {
            Ok(taken) => {
                self.lexer.go_on_from(place.behind(&piece[..taken]));
                Ok(taken)
            }
            Err(fault) => Err(fault),
        }
    }

    /// Takes bytes, up to one that makes a fault certain.
    fn take_bytes(&mut self, piece: &[u8]) -> Result<(), MapFault>
        ensures { (text : List ℕ) → IsReadOf text self.old → IsReadOn (text ++ piece.now) self.new result }
    {
        let mut taken = 0;
        while taken < piece.len() {
            match self.take_some(&piece[taken..]) {
                Ok(count) => taken += count,
                Err(fault) => return Err(fault),
            }
        }
        Ok(())
    }

    /// Takes the bytes at the beginning of these that can be passed, or else the first byte, and answers how many were taken.
    fn take_some(&mut self, bytes: &[u8]) -> Result<usize, MapFault>
        requires { 0 < length bytes.now }
        ensures some { IfOk result (λ taken. 0 < taken) }
        ensures within { IfOk result (λ taken. taken ≤ length bytes.now) }
        ensures read { (text : List ℕ) → IsReadOf text self.old → IsReadInto text bytes.now self.new result }
    {
        let passed = self.pass(bytes);
        if passed > 0 {
            return Ok(passed);
        }
        match self.take(bytes[0]) {
            Ok(()) => Ok(1),
            Err(fault) => Err(fault),
        }
    }

    /// Takes the bytes at the beginning of these that neither end a token nor open one, nor end a comment, and answers how many
    /// they are. Where not all of these are within the limit it takes none.
    fn pass(&mut self, bytes: &[u8]) -> usize
        ensures within { result ≤ length bytes.now }
        ensures passed { (text : List ℕ) → IsReadOf text self.old → IsReadOf (text ++ take result bytes.now) self.new }
    {
        let room = (TEXT_LIMIT as u64).saturating_sub(self.lexer.offset());
        if bytes.len() as u64 > room {
            return 0;
        }
        self.lexer.pass(bytes)
    }

    /// Takes the next byte.
    fn take(&mut self, byte: u8) -> Result<(), MapFault>
        ensures { (text : List ℕ) → IsReadOf text self.old → IsReadOn (text ++ byte ∷ []) self.new result }
    {
        if self.lexer.offset() >= TEXT_LIMIT as u64 {
            return Err(self.pass_limit(byte));
        }
        match self.lexer.push(byte) {
            Ok(token) => self.tokens.accept_token(token),
            Err(_) => Err(MapFault::Memory),
        }
    }

    /// The first fault of a text that goes on past its limit with a byte.
    fn pass_limit(&mut self, byte: u8) -> MapFault
        requires { IfSome self.old.lexer (λ state. text_limit ≤ state.offset) }
        ensures { (text : List ℕ) → IsReadOf text self.old → result ≢ MapFault.Memory → IsCertain (text ++ byte ∷ []) result }
    {
        let line = self.lexer.line();
        let pushed = self.lexer.push(byte);
        self.lexer.fail();
        match pushed {
            Ok(token) => self.tokens.limit_fault(token, line),
            Err(_) => MapFault::Memory,
        }
    }

    /// Takes the end of the text.
    pub(crate) fn finish(self) -> Result<MapFile, MapFault>
        ensures { (text : List ℕ) → IsReadOf text self → result ≢ Err MapFault.Memory → Means text result }
    {
        let line = self.lexer.line();
        let TextReader { lexer, tokens } = self;
        match lexer.finish() {
            Ok(last) => tokens.finish(last, line),
            Err(PieceFault::UnclosedQuote { line }) => Err(MapFault::UnclosedQuote { line }),
            Err(PieceFault::Memory) => Err(MapFault::Memory),
        }
    }
}
