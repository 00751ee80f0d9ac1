//! From a text under a name to what it means, piece by piece.

ghost use Rattle.std.specs.Prelude.{◌≡◌, ◌≤◌, [], IfOk, OnOk, length};
ghost use Rattle.qm_shelf.specs.SeenForms.{shelf_state};
ghost use Rattle.qm_shelf.specs.declared.shelf.TheConstants.{PIECE};
ghost use Rattle.qm_surroundings.specs.ShelfState.{text_under};
ghost use Rattle.qm_grammar.specs.Faults.{text_limit};
ghost use Rattle.qm_pieces.specs.ReadSoFar.{IsReaderOf};
ghost use Rattle.qm_statement.specs.TextMeans.{TextMeans};
ghost use Rattle.qm_make.specs.inner.Reading.{HasReadEnough, IsFed, IsFedPiece, IsFinished, IsReading, IsToldMeaning};

use qm_grammar::{MapFault, TEXT_LIMIT};
use qm_mapfile::MapFile;
use qm_pieces::MapReader;
use qm_shelf::{Shelf, ShelfFault, piece_buffer, read_piece};
use std::alloc::Global;

/// What a text means: a map, or its first fault.
pub type Meaning = Result<MapFile, MapFault>;

/// Reads the text under a name in pieces, up to a fault that is certain whatever follows, to its end or to one byte past its
/// limit, and says what it means.
pub fn read_map<H: Shelf>(alloc: Global, shelf: &mut H, name: &str) -> Result<Meaning, ShelfFault>
    ensures means { IfOk result (λ meaning. TextMeans (shelf_state H.Shelf shelf.old) name.now meaning) }
    ensures reading { IsReading (shelf_state H.Shelf shelf.old) (shelf_state H.Shelf shelf.new) name.now result }
{
    let mut reader = MapReader::new(alloc);
    let fed = feed_text(alloc, shelf, name, &mut reader);
    finish(reader, fed)
}

/// What a text means that a reader was fed, unless feeding it met a fault.
fn finish(reader: MapReader, fed: Result<(), ShelfFault>) -> Result<Meaning, ShelfFault>
    ensures { IsFinished reader fed result }
{
    match fed {
        Ok(()) => told(reader.finish()),
        Err(fault) => Err(fault),
    }
}

/// Feeds a reader the text under a name, until it knows what the text means.
fn feed_text<H: Shelf>(
    alloc: Global,
    shelf: &mut H,
    name: &str,
    reader: &mut MapReader,
) -> Result<(), ShelfFault>
    requires { IsReaderOf [] reader.old }
    ensures enough { OnOk result (HasReadEnough H.tells (text_under (shelf_state H.Shelf shelf.old) name.now) reader.new) }
    ensures reading { IsReading (shelf_state H.Shelf shelf.old) (shelf_state H.Shelf shelf.new) name.now result }
{
    let mut piece = piece_buffer(alloc)?;
    feed_pieces(shelf, name, &mut piece, reader)
}

/// Feeds a reader the text under a name, piece by piece through this buffer.
fn feed_pieces<H: Shelf>(
    shelf: &mut H,
    name: &str,
    piece: &mut [u8],
    reader: &mut MapReader,
) -> Result<(), ShelfFault>
    requires fresh { IsReaderOf [] reader.old }
    requires room { length piece.old ≡ PIECE }
    ensures enough { OnOk result (HasReadEnough H.tells (text_under (shelf_state H.Shelf shelf.old) name.now) reader.new) }
    ensures reading { IsReading (shelf_state H.Shelf shelf.old) (shelf_state H.Shelf shelf.new) name.now result }
{
    let mut done = 0;
    while done <= TEXT_LIMIT {
        match feed_piece(shelf, name, done, piece, reader) {
            Ok(Some(place)) => done = place,
            Ok(None) => return Ok(()),
            Err(fault) => return Err(fault),
        }
    }
    Ok(())
}

/// Feeds a reader the piece of the text under a name that begins at a place, and says where it ends; at no place, where the
/// text has ended before or the reader stops.
fn feed_piece<H: Shelf>(
    shelf: &mut H,
    name: &str,
    done: usize,
    piece: &mut [u8],
    reader: &mut MapReader,
) -> Result<Option<usize>, ShelfFault>
    requires within { done ≤ text_limit }
    requires room { length piece.old ≡ PIECE }
    ensures fed { IfOk result (λ place. IsFed H.tells (text_under (shelf_state H.Shelf shelf.old) name.now) done reader.old place reader.new) }
    ensures reading { IsReading (shelf_state H.Shelf shelf.old) (shelf_state H.Shelf shelf.new) name.now result }
{
    match read_piece(shelf, name, done, TEXT_LIMIT, piece) {
        Ok(0) => Ok(None),
        Ok(count) => Ok(feed(reader, &piece[..count], done + count)),
        Err(fault) => Err(fault),
    }
}

/// Feeds a reader a piece that ends at a place, and says the place, unless the reader stops.
fn feed(reader: &mut MapReader, piece: &[u8], place: usize) -> Option<usize>
    ensures { IsFedPiece reader.old piece.now place result reader.new }
{
    match reader.feed(piece) {
        Ok(()) => Some(place),
        Err(_) => None,
    }
}

/// What a text means, unless memory ran out.
fn told(meaning: Meaning) -> Result<Meaning, ShelfFault>
    ensures { IsToldMeaning meaning result }
{
    match meaning {
        Ok(map) => Ok(Ok(map)),
        Err(MapFault::Memory) => Err(ShelfFault::Memory),
        Err(fault) => Ok(Err(fault)),
    }
}
