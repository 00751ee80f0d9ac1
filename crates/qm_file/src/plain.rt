//! Plain files, as sections keep them.

ghost use Rattle.std.specs.Prelude.{◌≡◌, ℕ, Some, None, IfOk, MatchOption, if◌then◌else◌};
ghost use Rattle.qm_formats.specs.Layout.{Decoded};
ghost use Rattle.qm_formats.specs.FileParts.{FileFaultKind};
ghost use Rattle.qm_formats.specs.TreeFile.{TreeFile};
ghost use Rattle.qm_plain.specs.PlainFile.{ArePlainBytes, is_plain, plain_of, read_plain};
ghost use Rattle.qm_file.specs.Answers.{IsFaultOfFile};

use crate::file_fault::FileFault;
use crate::reading::decode;
use crate::tree_file::TreeFile;
use std::alloc::{AllocError, Global};

/// The version of a plain file.
const PLAIN_VERSION: u8 = 2;

/// The plain file of bytes: one of version 2 with this bound, without rows and without sections. `None` exactly where the
/// bytes are not those of one, or are more than a reader takes.
pub fn plain_file(alloc: Global, bytes: &[u8], bound: u32) -> Result<Option<TreeFile>, AllocError>
    ensures exact { IfOk result (λ found. found ≡ read_plain bound bytes.now) }
    ensures plain { IfOk result (λ found. MatchOption found ((file : TreeFile) → ArePlainBytes bound bytes.now file → ⊥) (ArePlainBytes bound bytes.now)) }
{
    match decode(alloc, bytes) {
        Ok(file) => Ok(kept_if_plain(file, bound)),
        Err(fault) => not_read(fault),
    }
}

/// A file that was read, where it is plain.
fn kept_if_plain(file: TreeFile, bound: u32) -> Option<TreeFile>
    ensures { result ≡ (if is_plain bound file then Some file else None) }
{
    if is_plain(&file, bound) {
        Some(file)
    } else {
        None
    }
}

fn is_plain(file: &TreeFile, bound: u32) -> bool
    ensures { result ≡ is_plain bound file.now }
{
    file.version == PLAIN_VERSION
        && file.bound == bound
        && file.rows.is_none()
        && file.sections.as_slice().len() == 0
}

/// What is answered where no file was read.
fn not_read(fault: FileFault) -> Result<Option<TreeFile>, AllocError>
    ensures { (bound : ℕ) (answer : Decoded FileFaultKind TreeFile) → IsFaultOfFile fault answer → IfOk result (λ found. found ≡ plain_of bound answer) }
{
    match fault {
        FileFault::Memory => Err(AllocError),
        _ => Ok(None),
    }
}
