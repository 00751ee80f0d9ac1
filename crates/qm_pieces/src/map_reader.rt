ghost use Rattle.std.specs.Prelude.{◌≡◌, ◌≢◌, ◌↔◌, ℕ, List, [], ◌++◌, Err, IfOk, IfErr};
ghost use Rattle.qm_grammar.specs.declared.fault.MapFault.{MapFault};
ghost use Rattle.qm_grammar.specs.Meaning.{Means};
ghost use Rattle.qm_grammar.specs.Valid.{IsValidMap};
ghost use Rattle.qm_pieces.specs.Certain.{IsCertain};
ghost use Rattle.qm_pieces.specs.ReadSoFar.{IsReaderOf};

use crate::text_reader::TextReader;
use qm_grammar::MapFault;
use qm_map::MapFile;
use std::alloc::Global;
use std::marker::Model;

/// Reads a MAP text in pieces, as they come. Contracts see it as what it has read, or as the fault at which it stopped.
#[derive(Drop)]
pub struct MapReader {
    reader: TextReader,
    stopped: Option<MapFault>,
}

impl Model for MapReader {
    ghost use Rattle.std.specs.Prelude.{Result};
    ghost use Rattle.qm_grammar.specs.declared.fault.MapFault.{MapFault};
    ghost use Rattle.qm_pieces.specs.ReadSoFar.{ReadSoFar, reader_of};

    ghost Value = { Result ReadSoFar MapFault };

    ghost view = { λ r. reader_of r.stopped r.reader };
}

impl MapReader {
    /// Before the first piece. It takes no memory.
    pub fn new(alloc: Global) -> MapReader
        ensures { IsReaderOf [] result }
    {
        MapReader {
            reader: TextReader::new(alloc),
            stopped: None,
        }
    }

    /// Takes the next piece of the text.
    ///
    /// # Errors
    ///
    /// The fault of the text that is certain, whatever follows, with its line. `Memory` where memory runs out. After an
    /// error each further call answers it again.
    pub fn feed(&mut self, piece: &[u8]) -> Result<(), MapFault>
        // A fault is answered exactly where the text so far means this fault, on this line, whatever follows.
        ensures certain { (text : List ℕ) → IsReaderOf text self.old → result ≢ Err MapFault.Memory
            → (fault : MapFault) → (result ≡ Err fault) ↔ IsCertain (text ++ piece.now) fault }

        // It goes on as a reader of the text with this piece.
        ensures reader { (text : List ℕ) → IsReaderOf text self.old → result ≢ Err MapFault.Memory
            → IsReaderOf (text ++ piece.now) self.new }

        // Once it has answered a fault it stays at that.
        ensures stops { IfErr result (λ fault. self.new ≡ Err fault) }
        ensures stopped { IfErr self.old (λ fault. result ≡ Err fault) }
    {
        match self.stopped {
            Some(fault) => Err(fault),
            None => match self.reader.take_piece(piece) {
                Ok(()) => Ok(()),
                Err(fault) => {
                    self.stopped = Some(fault);
                    Err(fault)
                }
            },
        }
    }

    /// The map that the whole text means, or its first fault.
    ///
    /// # Errors
    ///
    /// The fault that stands first in the text, with its line. `Memory` where memory runs out, or ran out before.
    pub fn finish(self) -> Result<MapFile, MapFault>
        ensures means { (text : List ℕ) → IsReaderOf text self → result ≢ Err MapFault.Memory → Means text result }
        ensures stopped { IfErr self (λ fault. result ≡ Err fault) }
        ensures valid { (text : List ℕ) → IsReaderOf text self → IfOk result IsValidMap }
    {
        match self.stopped {
            Some(fault) => Err(fault),
            None => self.reader.finish(),
        }
    }
}
