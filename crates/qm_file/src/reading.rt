ghost use Rattle.std.specs.Prelude.{◌≡◌, ◌≤◌, length, IfOk, MatchResult};
ghost use Rattle.qm_formats.specs.FileLayout.{file_layout, file_bytes, file_limit, read_file};
ghost use Rattle.qm_formats.specs.TreeFile.{TreeFile, IsValidFile};
ghost use Rattle.qm_file.specs.Answers.{IsFaultOfFile, AnswersTreeFile};

use crate::file_fault::FileFault;
use crate::header_reading::header_at_start;
use crate::rows_reading::rows_at;
use crate::sections_reading::sections_at;
use crate::tree_file::TreeFile;
use crate::tree_reading::tree_at;
use std::alloc::Global;

/// The most bytes of a file that is read.
const FILE_LIMIT: usize = 1 << 30;

/// The tree file of bytes, or the first fault in the order of its parts. Bytes past the limit are a fault before any other.
pub fn decode(alloc: Global, bytes: &[u8]) -> Result<TreeFile, FileFault>
    // What is read is valid and written so.
    ensures found { IfOk result (λ file. IsValidFile file × (bytes.now ≡ file_bytes file) × (length bytes.now ≤ file_limit)) }
    // What is valid and written so is read, unless memory runs out.
    ensures only { (file : TreeFile) → IsValidFile file → bytes.now ≡ file_bytes file → length bytes.now ≤ file_limit → MatchResult result (λ found. found ≡ file) (λ fault. fault ≡ FileFault.Memory) }
    // Which fault it is.
    ensures exact { AnswersTreeFile (λ file. file) (λ _. length bytes.now) result (read_file bytes.now) }
{
    whole_file(alloc, bytes)
}

#[tactic(auto, unfolding(qm_formats::specs::FileLayout::read_file))]
fn whole_file(alloc: Global, bytes: &[u8]) -> Result<TreeFile, FileFault>
    ensures { AnswersTreeFile (λ file. file) (λ _. length bytes.now) result (read_file bytes.now) }
{
    if bytes.len() > FILE_LIMIT {
        return Err(FileFault::TooLong {
            offset: FILE_LIMIT as u64,
        });
    }
    let (file, next) = file_at_start(alloc, bytes)?;
    if next < bytes.len() {
        return Err(FileFault::Trailing {
            offset: next as u64,
        });
    }
    Ok(file)
}

/// The file with which bytes begin, and where it ends.
#[tactic(auto, unfolding(qm_formats::specs::FileLayout::file_layout))]
fn file_at_start(alloc: Global, bytes: &[u8]) -> Result<(TreeFile, usize), FileFault>
    ensures { AnswersTreeFile (λ read. read.0) (λ read. read.1) result (file_layout.read bytes.now 0) }
{
    let (header, next) = header_at_start(bytes)?;
    let (tree, next) = tree_at(alloc, bytes, next, &header)?;
    let (rows, next) = rows_at(alloc, bytes, next, &header)?;
    let (sections, next) = sections_at(alloc, bytes, next, &header)?;
    let file = TreeFile {
        version: header.version,
        bound: header.bound,
        tree,
        rows,
        sections,
    };
    Ok((file, next))
}
