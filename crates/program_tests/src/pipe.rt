//! A system whose every file reads like a pipe: it gives one byte a read, cannot be sought in, and each
//! second read of it is interrupted by a signal.

ghost use Rattle.std.specs.Prelude.{IsErr};

use super::folder::reads;
use qm_shelf::FolderShelf;
use std::alloc::Allocator;
use std::fs::{Metadata, OpenFile, OpenOptions};
use std::io;
use std::io::{Error, ErrorKind, Read, Seek, SeekFrom, Write};
use std::rt::Files;
use std::test::Fail;

const TEXT: &[u8] = b"abc";

#[derive(Drop)]
struct Pipes;

#[derive(Drop)]
struct Pipe {
    given: usize,
    is_interrupted: bool,
}

fn refused<T>() -> io::Result<T>
    ensures { IsErr result }
{
    Err(Error::from(ErrorKind::Unsupported))
}

impl Read for Pipe {
    fn read(&mut self, into: &mut [u8]) -> io::Result<usize> {
        self.is_interrupted = !self.is_interrupted;
        if self.is_interrupted {
            return Err(Error::from(ErrorKind::Interrupted));
        }
        match (into.first_mut(), TEXT.get(self.given)) {
            (Some(byte), Some(next)) => {
                *byte = *next;
                self.given = self.given.saturating_add(1);
                Ok(1)
            }
            _ => Ok(0),
        }
    }
}

impl Write for Pipe {
    fn write(&mut self, _bytes: &[u8]) -> io::Result<usize> {
        refused()
    }

    fn flush(&mut self) -> io::Result<()> {
        Ok(())
    }
}

impl Seek for Pipe {
    fn seek(&mut self, _to: SeekFrom) -> io::Result<u64> {
        Err(Error::from(ErrorKind::NotSeekable))
    }
}

impl OpenFile for Pipe {
    fn metadata(&self) -> io::Result<Metadata> {
        refused()
    }

    fn set_len(&self, _size: u64) -> io::Result<()> {
        refused()
    }

    fn sync_all(&self) -> io::Result<()> {
        refused()
    }

    fn sync_data(&self) -> io::Result<()> {
        refused()
    }
}

impl Files for Pipes {
    type File = Pipe;

    type Dir = Pipe;

    fn open_file(&self, _how: &OpenOptions, _path: &str) -> io::Result<Pipe> {
        Ok(Pipe {
            given: 0,
            is_interrupted: false,
        })
    }

    fn open_dir(&self, _path: &str) -> io::Result<Pipe> {
        refused()
    }

    fn metadata(&self, _path: &str) -> io::Result<Metadata> {
        refused()
    }

    fn symlink_metadata(&self, _path: &str) -> io::Result<Metadata> {
        refused()
    }

    fn copy(&self, _from: &str, _to: &str) -> io::Result<u64> {
        refused()
    }

    fn rename(&self, _from: &str, _to: &str) -> io::Result<()> {
        refused()
    }

    fn remove_file(&self, _path: &str) -> io::Result<()> {
        refused()
    }

    fn create_dir(&self, _path: &str) -> io::Result<()> {
        refused()
    }

    fn remove_dir(&self, _path: &str) -> io::Result<()> {
        refused()
    }

    fn remove_dir_all<B: Allocator>(&self, _alloc: B, _path: &str) -> io::Result<()> {
        refused()
    }
}

/// A read goes on where the last one ended and is tried again after a signal. A read that does not go on is
/// a fault, and so is one after it.
#[test]
fn the_folder_reads_on(rt: HostRuntime) -> Result<(), Fail> {
    let pipes = Pipes;
    let mut shelf = FolderShelf::over(&pipes);
    let whole = reads(&mut shelf, "a", 0, 4, "a")
        && reads(&mut shelf, "a", 1, 4, "b")
        && reads(&mut shelf, "a", 2, 4, "c")
        && reads(&mut shelf, "a", 3, 4, "");
    assert!(rt; whole && reads(&mut shelf, "a", 0, 4, "a"));
    assert!(rt; !reads(&mut shelf, "b", 1, 4, "b") && !reads(&mut shelf, "a", 1, 4, "b"));
    Ok(())
}
