//! Faults of texts that come in pieces.

use qm_map::MapFault;
use qm_pieces::MapReader;
use std::alloc::{AllocError, Global};
use std::test::Fail;

/// The fault of an answer, unless memory ran out.
fn fault_of<T: Drop>(answer: Result<T, MapFault>) -> Result<Option<MapFault>, AllocError> {
    match answer {
        Ok(_) => Ok(None),
        Err(MapFault::Memory) => Err(AllocError),
        Err(fault) => Ok(Some(fault)),
    }
}

/// The faults that a reader answers to three pieces, one after another, and then to the end.
fn faults_of(alloc: Global, pieces: [&[u8]; 3]) -> Result<[Option<MapFault>; 4], AllocError> {
    let mut reader = MapReader::new(alloc);
    let first = fault_of(reader.feed(pieces[0]))?;
    let second = fault_of(reader.feed(pieces[1]))?;
    let third = fault_of(reader.feed(pieces[2]))?;
    Ok([first, second, third, fault_of(reader.finish())?])
}

const UNEXPECTED: Option<MapFault> = Some(MapFault::Unexpected { line: 1 });

const UNCLOSED: Option<MapFault> = Some(MapFault::UnclosedQuote { line: 2 });

static FAULTS: [([&[u8]; 3], [Option<MapFault>; 4]); 4] = [
    (
        [b"}", b" ", b"{"],
        [None, UNEXPECTED, UNEXPECTED, UNEXPECTED],
    ),
    ([b"", b"}", b""], [None, None, None, UNEXPECTED]),
    (
        [b"{ \"a", b"", b""],
        [None, None, None, Some(MapFault::UnclosedQuote { line: 1 })],
    ),
    ([b"{\n", b"\"a\n", b"b"], [None, None, None, UNCLOSED]),
];

#[test]
fn faults_once_they_are_certain(rt: HostRuntime) -> Result<(), Fail> {
    for &(pieces, faults) in &FAULTS {
        assert!(rt; faults_of(rt.alloc(), pieces)? == faults);
    }
    Ok(())
}
