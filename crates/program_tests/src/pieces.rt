use qm_shelf::{FolderShelf, ShelfFault, read_whole, write_whole};
use std::alloc::{AllocError, Global};
use std::fs;
use std::test::Fail;

/// An empty entity after so many spaces.
fn after_spaces(alloc: Global, count: usize) -> Result<Vec<u8>, AllocError> {
    let mut text = Vec::new(alloc);
    text.resize(count, b' ')?;
    text.extend_from_slice(b"{ }")?;
    Ok(text)
}

/// A file of 200,003 bytes is written and read whole, and up to one byte past a limit.
#[test]
fn keeps_a_long_file_in_the_folder(rt: HostRuntime) -> Result<(), Fail> {
    let name = "program_tests_long_file.txt";
    let bytes = after_spaces(rt.alloc(), 200_000)?;
    let mut shelf = FolderShelf::over(&rt);
    let wrote = write_whole(&mut shelf, name, &bytes).is_ok();
    let whole = read_whole(rt.alloc(), &mut shelf, name, 200_003);
    let first = read_whole(rt.alloc(), &mut shelf, name, 70_000);
    fs::remove_file(&rt, name)?;
    assert!(rt; wrote && is_read(whole, bytes.get(..)) && is_read(first, bytes.get(..70_001)));
    Ok(())
}

/// Whether a read gave these bytes.
fn is_read(read: Result<Vec<u8>, ShelfFault>, wanted: Option<&[u8]>) -> bool {
    match read {
        Ok(bytes) => wanted == Some(bytes.as_slice()),
        Err(_) => false,
    }
}
