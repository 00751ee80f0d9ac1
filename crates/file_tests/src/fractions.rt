//! Fractions as they are printed.

use qm_decimal::print6;
use std::alloc::{AllocError, Global};
use std::test::Fail;

/// The greatest absolute value of a numerator that is printed.
const BOUND: u128 = 1 << 100;

/// The text of a fraction, and none of a fraction that is not printed.
fn printed(alloc: Global, numerator: i128, denominator: i128) -> Result<Vec<u8>, AllocError> {
    let mut out = Vec::new(alloc);
    if denominator > 0 && numerator.unsigned_abs() <= BOUND {
        print6(numerator, denominator, &mut out)?;
    }
    Ok(out)
}

static PRINTED: [(i128, i128, &[u8]); 5] = [
    (1, 3, b"0.333333"),
    (-2, 3, b"-0.666667"),
    (5, 1, b"5"),
    (1, 2_000_000, b"0.000001"),
    (-1, 10_000_000, b"0.000000"),
];

#[test]
fn fractions_are_printed(rt: HostRuntime) -> Result<(), Fail> {
    for &(numerator, denominator, text) in &PRINTED {
        let shown = printed(rt.alloc(), numerator, denominator)?;
        assert!(rt; shown.as_slice() == text);
    }
    Ok(())
}
