//! Writing a file whole.

ghost use Rattle.std.specs.Prelude.{ℕ, ◌≡◌, ◌<◌, ◌≤◌, length, IsTrue, IfOk, IfErr, OnOk, OnErr, take, Some};
ghost use Rattle.qm_surroundings.specs.Counts.{Stays, StaysElsewhere};
ghost use Rattle.qm_shelf.specs.FaultCounts.{ShelfCounted};
ghost use Rattle.qm_shelf.specs.SeenForms.{shelf_state};
ghost use Rattle.qm_surroundings.specs.ShelfChanges.{IsKeptElsewhere, MetNoFault};
ghost use Rattle.qm_shelf.specs.FaultMeans.{WriteFaultMeans};
ghost use Rattle.qm_surroundings.specs.WholeFiles.{HoldsExactly, HoldsUnfinished};

use crate::shelf::{PIECE, Shelf, ShelfFault};

/// Makes the file `name` hold exactly `bytes`, in pieces. After a fault it is as it was, or holds the
/// first of them.
pub fn write_whole<H: Shelf>(shelf: &mut H, name: &str, bytes: &[u8]) -> Result<(), ShelfFault>
    ensures whole { OnOk result (IsTrue H.tells → HoldsExactly (shelf_state H.Shelf shelf.new) name.now bytes.now) }
    ensures unfinished { OnErr result (IsTrue H.tells → HoldsUnfinished (shelf_state H.Shelf shelf.old) (shelf_state H.Shelf shelf.new) name.now bytes.now) }
    ensures kept_elsewhere { IsKeptElsewhere (shelf_state H.Shelf shelf.old) (shelf_state H.Shelf shelf.new) name.now }
    ensures ok { OnOk result (MetNoFault (shelf_state H.Shelf shelf.old) (shelf_state H.Shelf shelf.new)) }
    ensures err { IfErr result (WriteFaultMeans (shelf_state H.Shelf shelf.old) (shelf_state H.Shelf shelf.new) name.now) }
{
    shelf.create(name)?;
    let mut written = 0;
    while written < bytes.len() {
        match append_piece(shelf, name, bytes, written) {
            Ok(end) => written = end,
            Err(fault) => return Err(fault),
        }
    }
    Ok(())
}

/// Appends the next piece of `bytes` to a file that has the first `written` of them, and says how
/// many of them it has then.
fn append_piece<H: Shelf>(
    shelf: &mut H,
    name: &str,
    bytes: &[u8],
    written: usize,
) -> Result<usize, ShelfFault>
    requires left { written < length bytes.now }
    requires so_far { IsTrue H.tells → H.held shelf.old name.now ≡ Some (take written bytes.now) }
    ensures further { IfOk result (λ end. (written < end) × (end ≤ length bytes.now)) }
    ensures ok { IfOk result (λ end. IsTrue H.tells → H.held shelf.new name.now ≡ Some (take end bytes.now)) }
    ensures err { OnErr result (IsTrue H.tells → (count : ℕ) × (H.held shelf.new name.now ≡ Some (take count bytes.now))) }
    ensures others_stay { StaysElsewhere name.now (H.held shelf.old) (H.held shelf.new) }
    ensures read_faults_stay { Stays (H.read_faults shelf.old) (H.read_faults shelf.new) }
    ensures write_faults_counted { ShelfCounted result name.now (H.write_faults shelf.old) (H.write_faults shelf.new) }
{
    let end = written + (bytes.len() - written).min(PIECE);
    shelf.append(name, &bytes[written..end])?;
    Ok(end)
}
