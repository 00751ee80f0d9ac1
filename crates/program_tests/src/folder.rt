use qm_shelf::{FolderShelf, Shelf, Sink, TermSink};
use std::io::Write;
use std::os::fd::AsRawFd;
use std::rt::Files;
use std::test::Fail;
use std::{fs, io};

/// Whether a read of a file, from a place on and into a buffer with so much room, gives these bytes and
/// leaves the rest of the buffer.
pub fn reads<R: Files>(
    shelf: &mut FolderShelf<'_, R>,
    name: &str,
    at: u64,
    room: usize,
    wanted: &str,
) -> bool {
    let mut into = [b'.'; 32];
    let Some(buffer) = into.get_mut(..room) else {
        return false;
    };
    let count = shelf.read(name, at, buffer);
    let mut expected = [b'.'; 32];
    if let Some(front) = expected.get_mut(..wanted.len()) {
        front.copy_from_slice(wanted.as_bytes());
    }
    count.is_ok_and(|count| count == wanted.len()) && into == expected
}

/// Places to read from, out of order too, the room of the buffer, and what is read.
static READS: [(u64, usize, &str); 11] = [
    (0, 4, "one "),
    (4, 4, "two "),
    (8, 32, "three"),
    (13, 32, ""),
    (5, 3, "wo "),
    (5, 3, "wo "),
    (8, 3, "thr"),
    (0, 32, "one two three"),
    (40, 4, ""),
    (0, 0, ""),
    (0, 8, "one two "),
];

/// Whether a file grows in pieces, and is read from each place; what is added later is read too.
fn grows<R: Files>(shelf: &mut FolderShelf<'_, R>, name: &str) -> bool {
    let mut right = shelf.append(name, b"one ").is_ok() && shelf.append(name, b"two three").is_ok();
    for &(at, room, wanted) in &READS {
        right = right && reads(shelf, name, at, room, wanted);
    }
    right && shelf.append(name, b" four").is_ok() && reads(shelf, name, 8, 32, "three four")
}

/// A real file is created over old bytes, grows, and is emptied again.
#[test]
fn the_folder_reads_creates_and_appends(rt: HostRuntime) -> Result<(), Fail> {
    let name = "program_tests_file.txt";
    fs::write(&rt, name, b"old bytes, more than there will be")?;
    let mut shelf = FolderShelf::over(&rt);
    let created = shelf.create(name).is_ok() && fs::read(&rt, name)?.is_empty();
    let grown = grows(&mut shelf, name);
    let emptied = shelf.create(name).is_ok() && reads(&mut shelf, name, 18, 32, "");
    fs::remove_file(&rt, name)?;
    assert!(rt; created && grown && emptied);
    Ok(())
}

static ABSENT: [&str; 5] = ["program_tests_absent.txt", "/", "/dev/null/x", "", "a\0b"];

static NEVER_MADE: [&str; 4] = ["/", "/dev/null/x", "", "a\0b"];

/// Whether reading and appending are faults under each name that is not there.
fn misses_absent<R: Files>(shelf: &mut FolderShelf<'_, R>) -> bool {
    let mut right = true;
    for name in &ABSENT {
        right &= shelf.read(name, 0, &mut [0; 4]).is_err() && shelf.append(name, b"x").is_err();
    }
    right
}

/// Whether making a file is a fault under each name that no file can have.
fn makes_none<R: Files>(shelf: &mut FolderShelf<'_, R>) -> bool {
    let mut right = true;
    for name in &NEVER_MADE {
        right &= shelf.create(name).is_err();
    }
    right
}

/// A name that is not there, a folder and a name below a file are faults.
#[test]
fn the_folder_answers_faults(rt: HostRuntime) -> Result<(), Fail> {
    let mut shelf = FolderShelf::over(&rt);
    let missed = misses_absent(&mut shelf);
    let made_none = makes_none(&mut shelf);
    assert!(rt; missed && made_none && TermSink::over(&rt).write(b"printed\n").is_ok());
    Ok(())
}

/// A pipe is read in order, in pieces, to its end.
#[test]
fn the_folder_reads_a_pipe(rt: HostRuntime) -> Result<(), Fail> {
    let (reader, mut writer) = io::pipe(&rt)?;
    let name = format!(in rt.alloc(); "/proc/self/fd/{}", reader.as_raw_fd())?;
    let mut shelf = FolderShelf::over(&rt);
    writer.write_all(b"one two three")?;
    let first = reads(&mut shelf, &name, 0, 4, "one ");
    drop(writer);
    let rest = reads(&mut shelf, &name, 4, 32, "two three") && reads(&mut shelf, &name, 13, 32, "");
    assert!(rt; first && rest);
    Ok(())
}
