//! Files that are open for reading.

ghost use Rattle.std.specs.Prelude.{◌≤◌, length, IfOk};

use crate::file_name::FileName;
use std::io::{ErrorKind, Read, Seek, SeekFrom};
use std::rt::Files;
use std::{fs, io};

/// How often a read is tried again that a signal interrupts.
const TRIES: u64 = u64::MAX;

/// A file that is open for reading, under its name, and the place where it stands.
#[derive(Drop)]
pub struct OpenFile<F> {
    name: FileName,
    file: F,
    place: u64,
}

impl<F: Drop> OpenFile<F> {
    /// Keeps a file open at a place, unless its name is too long.
    pub fn keep(name: &str, file: F, place: u64) -> Option<OpenFile<F>> {
        match FileName::of(name) {
            Some(name) => Some(OpenFile { name, file, place }),
            None => None,
        }
    }

    /// The file, where it has this name, stands at this place and was read before.
    pub fn at(self, name: &str, place: u64) -> Option<F> {
        if place > 0 && self.place == place && self.name.is(name) {
            Some(self.file)
        } else {
            None
        }
    }
}

/// Opens the file under a name for reading, at a place. A file that is read from its start is not sought
/// in, so that it can be a pipe.
pub fn open_at<R: Files>(rt: &R, name: &str, place: u64) -> io::Result<R::File> {
    let mut file = fs::open(rt, name)?;
    if place > 0 {
        file.seek(SeekFrom::Start(place))?;
    }
    Ok(file)
}

/// Reads once from where a file stands, and again where a signal interrupts it.
pub fn read_once<F: Read>(file: &mut F, into: &mut [u8]) -> io::Result<usize>
    ensures { IfOk result (λ count. count ≤ length into.new) }
{
    for _ in 0..TRIES {
        match file.read(into) {
            Ok(count) => return Ok(count),
            Err(error) => {
                if error.kind() != ErrorKind::Interrupted {
                    return Err(error);
                }
            }
        }
    }
    Err(io::Error::from(ErrorKind::Interrupted))
}
