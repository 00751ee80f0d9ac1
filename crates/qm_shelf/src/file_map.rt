//! Files in memory: a map from their names to their bytes.

ghost use Rattle.std.specs.Prelude.{◌≡◌, ◌<◌, ◌≤◌, ◌+◌, Some, IsSome, OnOk, OnErr, length};
ghost use Rattle.std.specs.Option.{option_copied};
ghost use Rattle.qm_surroundings.specs.Counts.{Stays, StaysElsewhere};
ghost use Rattle.qm_shelf.specs.Reads.{IsRead};
ghost use Rattle.qm_shelf.specs.Writes.{IsAdded};
ghost use Rattle.qm_shelf.specs.NamedFiles.{file_under};

use std::alloc::{AllocError, Global};
use std::collections::BTreeMap;

pub type Files = BTreeMap<String, Vec<u8>>;

/// The bytes of a file.
pub fn bytes_of<'a>(files: &'a Files, name: &str) -> Option<&'a [u8]>
    ensures { option_copied result ≡ file_under files.now name.now }
{
    let bytes = files.get(name)?;
    Some(bytes.as_slice())
}

/// Makes a file hold these bytes, whether it was held or not. For want of memory nothing changes.
pub fn put(files: &mut Files, alloc: Global, name: &str, bytes: Vec<u8>) -> Result<(), AllocError>
    ensures put { OnOk result (file_under files.new name.now ≡ Some bytes.items) }
    ensures others_stay { StaysElsewhere name.now (file_under files.old) (file_under files.new) }
    ensures err { OnErr result (Stays (file_under files.old) (file_under files.new)) }
{
    let key = String::from_str(alloc, name)?;
    files.insert(key, bytes)?;
    Ok(())
}

/// Adds bytes at the end of a file that is held. For want of memory nothing changes.
pub fn append(files: &mut Files, name: &str, bytes: &[u8]) -> Result<(), AllocError>
    requires { IsSome (file_under files.old name.now) }
    ensures added { OnOk result (IsAdded (file_under files.old name.now) bytes.now (file_under files.new name.now)) }
    ensures others_stay { StaysElsewhere name.now (file_under files.old) (file_under files.new) }
    ensures err { OnErr result (Stays (file_under files.old) (file_under files.new)) }
{
    match files.get_mut(name) {
        Some(file) => file.extend_from_slice(bytes),
        None => unreachable!(),
    }
}

/// Copies bytes from a place on to the beginning of a buffer, at most so many, as many as there are and as fit, and answers
/// how many.
pub fn copy_from(bytes: &[u8], place: usize, most: u64, into: &mut [u8]) -> usize
    requires { 0 < most }
    ensures read { IsRead (Some bytes.now) place into.old into.new result }
    ensures few { result ≤ most }
    ensures all { result < most → result < length into.old → length bytes.now ≤ place + result }
{
    let rest = &bytes[place.min(bytes.len())..];
    let count = rest.len().min(into.len()).min(most as usize);
    into[..count].copy_from_slice(&rest[..count]);
    count
}
