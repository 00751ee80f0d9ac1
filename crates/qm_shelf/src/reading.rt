//! Reading a file, a piece at a time and whole.

ghost use Rattle.std.specs.Prelude.{◌≡◌, ◌≤◌, ◌+◌, ◌++◌, IsTrue, IfOk, IfErr, OnOk, length, take, drop, Ok, vec_len};
ghost use Rattle.qm_surroundings.specs.Counts.{Stays};
ghost use Rattle.qm_shelf.specs.FaultCounts.{ShelfCounted};
ghost use Rattle.qm_surroundings.specs.HeldFile.{bytes_of_file};
ghost use Rattle.qm_shelf.specs.SeenForms.{shelf_state};
ghost use Rattle.qm_surroundings.specs.ShelfChanges.{IsKept, MetNoFault};
ghost use Rattle.qm_shelf.specs.FaultMeans.{ReadFaultMeans};
ghost use Rattle.qm_surroundings.specs.WholeFiles.{IsReadFrom};

use crate::shelf::{FARTHEST_PLACE, PIECE, Shelf, ShelfFault};
use std::alloc::{AllocError, Global};

/// Reads the bytes under a name to their end, or to one byte past a limit, in pieces.
pub fn read_whole<H: Shelf>(
    alloc: Global,
    shelf: &mut H,
    name: &str,
    limit: usize,
) -> Result<Vec<u8>, ShelfFault>
    requires { limit ≤ FARTHEST_PLACE }
    ensures bytes { IfOk result (λ bytes. IsReadFrom (shelf_state H.Shelf shelf.old) name.now limit bytes.items) }
    ensures kept { IsKept (shelf_state H.Shelf shelf.old) (shelf_state H.Shelf shelf.new) }
    ensures ok { OnOk result (MetNoFault (shelf_state H.Shelf shelf.old) (shelf_state H.Shelf shelf.new)) }
    ensures err { IfErr result (ReadFaultMeans (shelf_state H.Shelf shelf.old) (shelf_state H.Shelf shelf.new) name.now) }
{
    let mut bytes = Vec::new(alloc);
    let mut piece = piece_buffer(alloc)?;
    while bytes.len() <= limit {
        match add_piece(shelf, name, limit, &mut piece, &mut bytes) {
            Err(fault) => return Err(fault),
            Ok(count) => {
                if count == 0 {
                    return Ok(bytes);
                }
            }
        }
    }
    Ok(bytes)
}

/// Room for one piece.
pub fn piece_buffer(alloc: Global) -> Result<Vec<u8>, AllocError>
    ensures { IfOk result (λ piece. vec_len piece ≡ PIECE) }
{
    vec![in alloc; 0; PIECE]
}

/// Reads what follows so many bytes under a name into the first bytes of a piece, as much as one piece and one byte past a
/// limit allow, and says how much that was: nothing only at the end.
pub fn read_piece<H: Shelf>(
    shelf: &mut H,
    name: &str,
    done: usize,
    limit: usize,
    piece: &mut [u8],
) -> Result<usize, ShelfFault>
    requires far { limit ≤ FARTHEST_PLACE }
    requires room { done ≤ limit }
    requires piece { length piece.old ≡ PIECE }
    ensures bytes { IsTrue H.tells → IfOk result (λ count. take count piece.new ≡ take count (drop done (bytes_of_file (H.held shelf.old name.now)))) }
    ensures count { IfOk result (λ count. count ≤ length piece.new) }
    ensures limit { IfOk result (λ count. done + count ≤ limit + 1) }
    ensures progress { IsTrue H.tells → result ≡ Ok 0 → length (bytes_of_file (H.held shelf.old name.now)) ≤ done }
    ensures held_stays { Stays (H.held shelf.old) (H.held shelf.new) }
    ensures write_faults_stay { Stays (H.write_faults shelf.old) (H.write_faults shelf.new) }
    ensures read_faults_counted { ShelfCounted result name.now (H.read_faults shelf.old) (H.read_faults shelf.new) }
{
    let room = (limit + 1 - done).min(PIECE);
    shelf.read(name, done as u64, &mut piece[..room])
}

/// Reads what follows the bytes so far, as much as one piece and the limit allow, and says how much
/// that was: nothing only at the end.
fn add_piece<H: Shelf>(
    shelf: &mut H,
    name: &str,
    limit: usize,
    piece: &mut [u8],
    bytes: &mut Vec<u8>,
) -> Result<usize, ShelfFault>
    requires far { limit ≤ FARTHEST_PLACE }
    requires room { vec_len bytes.old ≤ limit }
    requires piece { length piece.old ≡ PIECE }
    ensures bytes { IsTrue H.tells → IfOk result (λ count. bytes.new.items ≡ bytes.old.items ++ take count (drop (vec_len bytes.old) (bytes_of_file (H.held shelf.old name.now)))) }
    ensures count { IfOk result (λ count. vec_len bytes.new ≡ vec_len bytes.old + count) }
    ensures limit { IfOk result (λ count. vec_len bytes.new ≤ limit + 1) }
    ensures progress { IsTrue H.tells → result ≡ Ok 0 → length (bytes_of_file (H.held shelf.old name.now)) ≤ vec_len bytes.old }
    ensures held_stays { Stays (H.held shelf.old) (H.held shelf.new) }
    ensures write_faults_stay { Stays (H.write_faults shelf.old) (H.write_faults shelf.new) }
    ensures read_faults_counted { ShelfCounted result name.now (H.read_faults shelf.old) (H.read_faults shelf.new) }
{
    let count = read_piece(shelf, name, bytes.len(), limit, piece)?;
    bytes.extend_from_slice(&piece[..count])?;
    Ok(count)
}
