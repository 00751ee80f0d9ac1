//! The parts of a listing's text, put behind bytes.

ghost use Rattle.std.specs.Prelude.{◌≡◌, ◌++◌, ◌+◌, ◌%◌, ◌∷◌, [], flat_map, decimal, OnOk};
ghost use Rattle.qm_numerals.specs.Printed.{last_digits};
ghost use Rattle.qm_listing.specs.Grammar.{first_line_layout, count_line_layout, coordinate_layout, corner_layout, portal_layout};

use itoa::Buffer;
use qm_listing::{Coordinate, PrtPortal};
use qm_lists::{Encoding, append_all};
use std::alloc::AllocError;

const MILLION: u64 = 1_000_000;

/// The first line.
#[tactic(auto, unfolding(qm_listing::specs::Grammar::first_line_layout, qm_listing::specs::Numerals::literal))]
pub(crate) fn put_header(out: &mut Vec<u8>) -> Result<(), AllocError>
    ensures { OnOk result (out.new.items ≡ out.old.items ++ first_line_layout.bytes_of tt) }
{
    out.extend_from_slice(b"PRT1\n")
}

/// A count on a line of its own.
#[tactic(auto, unfolding(qm_listing::specs::Grammar::count_line_layout, qm_listing::specs::Numerals::literal, qm_listing::specs::Numerals::numeral))]
pub(crate) fn put_count_line(out: &mut Vec<u8>, count: u64) -> Result<(), AllocError>
    ensures { OnOk result (out.new.items ≡ out.old.items ++ count_line_layout.bytes_of count) }
{
    put_number(out, count)?;
    out.push(b'\n')?;
    Ok(())
}

fn put_number(out: &mut Vec<u8>, number: u64) -> Result<(), AllocError>
    ensures { OnOk result (out.new.items ≡ out.old.items ++ decimal number) }
{
    let mut buffer = Buffer::new();
    out.extend_from_slice(buffer.format(number).as_bytes())
}

/// A number and a space.
fn put_spaced(out: &mut Vec<u8>, number: u64) -> Result<(), AllocError>
    ensures { OnOk result (out.new.items ≡ out.old.items ++ (decimal number ++ 32 ∷ [])) }
{
    put_number(out, number)?;
    out.push(b' ')?;
    Ok(())
}

/// Six decimals.
fn put_decimals(out: &mut Vec<u8>, number: u64) -> Result<(), AllocError>
    ensures { OnOk result (out.new.items ≡ out.old.items ++ last_digits 6 number) }
{
    let tens = number / 10;
    let hundreds = tens / 10;
    let thousands = hundreds / 10;
    let ten_thousands = thousands / 10;
    let hundred_thousands = ten_thousands / 10;
    out.extend_from_slice(&[
        digit(hundred_thousands),
        digit(ten_thousands),
        digit(thousands),
        digit(hundreds),
        digit(tens),
        digit(number),
    ])
}

/// The last digit of a number.
fn digit(number: u64) -> u8
    ensures { result ≡ 48 + number % 10 }
{
    b'0' + (number % 10) as u8
}

/// A coordinate and a space.
#[tactic(auto, unfolding(qm_listing::specs::Grammar::coordinate_layout, qm_listing::specs::Numbers::coordinate_numeral, qm_listing::specs::Numerals::literal, qm_listing::specs::Numerals::numeral))]
fn put_coordinate(out: &mut Vec<u8>, coordinate: Coordinate) -> Result<(), AllocError>
    ensures { OnOk result (out.new.items ≡ out.old.items ++ coordinate_layout.bytes_of coordinate) }
{
    let magnitude = coordinate.millionths.unsigned_abs();
    if coordinate.millionths < 0 {
        out.push(b'-')?;
    }
    put_number(out, magnitude / MILLION)?;
    if !coordinate.whole {
        out.push(b'.')?;
        put_decimals(out, magnitude % MILLION)?;
    }
    out.push(b' ')?;
    Ok(())
}

/// A corner: `(x y z ) `.
struct CornerText;

impl Encoding for CornerText {
    type Value = [Coordinate; 3];

    ghost can_append = { λ _. Unit {0} };

    ghost bytes_of = { corner_layout.bytes_of };

    #[tactic(auto, unfolding(qm_listing::specs::Grammar::corner_layout, qm_listing::specs::Numerals::literal))]
    fn append(out: &mut Vec<u8>, corner: &[Coordinate; 3]) -> Result<(), AllocError> {
        let [x, y, z] = *corner;
        out.push(b'(')?;
        put_coordinate(out, x)?;
        put_coordinate(out, y)?;
        put_coordinate(out, z)?;
        out.extend_from_slice(b") ")
    }
}

/// The line of a portal.
pub(crate) struct PortalLine;

impl Encoding for PortalLine {
    type Value = PrtPortal;

    ghost can_append = { λ _. Unit {0} };

    ghost bytes_of = { (portal_layout 0).bytes_of };

    #[tactic(auto, unfolding(qm_listing::specs::Grammar::portal_layout, qm_listing::specs::Grammar::points_layout, qm_listing::specs::Grammar::leaf0_layout, qm_listing::specs::Grammar::leaf1_layout, qm_listing::specs::Numerals::literal, qm_listing::specs::Numerals::numeral))]
    fn append(out: &mut Vec<u8>, portal: &PrtPortal) -> Result<(), AllocError> {
        put_spaced(out, portal.corners.len() as u64)?;
        put_spaced(out, portal.leaf0)?;
        put_spaced(out, portal.leaf1)?;
        append_all::<CornerText>(out, portal.corners.as_slice())?;
        out.push(b'\n')?;
        Ok(())
    }
}
