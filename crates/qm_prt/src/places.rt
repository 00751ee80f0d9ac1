//! Numbers and single bytes, read at a place. Each answers where it ends.

ghost use Rattle.std.specs.Prelude.{◌≡◌, ◌∷◌, []};
ghost use Rattle.qm_listing.specs.Numerals.{numeral};
ghost use Rattle.qm_listing.specs.Numbers.{counts, coordinates};
ghost use Rattle.qm_listing.specs.Grammar.{number, due, first_line_layout};
ghost use Rattle.qm_prt.specs.Answers.{IsFaultOfListing, AnswersListing};

use crate::numbers::{coordinate_of, count_of, numeral_ahead};
use crate::prt_fault::PrtFault;
use qm_listing::Coordinate;

const HEADER: [u8; 5] = *b"PRT1\n";

/// Tests the first line, and answers where it ends.
#[tactic(auto, unfolding(qm_listing::specs::Grammar::first_line_layout, qm_listing::specs::Numerals::literal))]
pub(crate) fn header_at_start(text: &[u8]) -> Result<usize, PrtFault>
    ensures { AnswersListing (λ _. tt) (λ next. next) result (first_line_layout.read text.now 0) }
{
    if text.starts_with(&HEADER) {
        Ok(HEADER.len())
    } else {
        Err(PrtFault::Header { offset: 0 })
    }
}

/// Tests that a byte stands at a place, and answers where it ends.
#[tactic(auto, unfolding(qm_listing::specs::Numerals::literal))]
pub(crate) fn byte_at(text: &[u8], at: usize, byte: u8) -> Result<usize, PrtFault>
    ensures { AnswersListing (λ _. tt) (λ next. next) result ((due byte).read text.now at) }
{
    if at < text.len() {
        if text[at] == byte {
            return Ok(at + 1);
        }
    }
    Err(PrtFault::Shape { offset: at as u64 })
}

/// A count or the number of a leaf, and where it ends.
#[tactic(auto, unfolding(qm_listing::specs::Numerals::numeral))]
pub(crate) fn count_at(text: &[u8], at: usize) -> Result<(u64, usize), PrtFault>
    ensures { AnswersListing (λ read. read.0) (λ read. read.1) result ((numeral number counts).read text.now at) }
{
    let numeral = numeral_ahead(text, at);
    match count_of(numeral) {
        Some(count) => Ok((count, at + numeral.len())),
        None => Err(PrtFault::Number { offset: at as u64 }),
    }
}

/// A coordinate, and where it ends.
#[tactic(auto, unfolding(qm_listing::specs::Numerals::numeral))]
pub(crate) fn coordinate_at(text: &[u8], at: usize) -> Result<(Coordinate, usize), PrtFault>
    ensures { AnswersListing (λ read. read.0) (λ read. read.1) result ((numeral number coordinates).read text.now at) }
{
    let numeral = numeral_ahead(text, at);
    match coordinate_of(numeral) {
        Some(coordinate) => Ok((coordinate, at + numeral.len())),
        None => Err(PrtFault::Number { offset: at as u64 }),
    }
}
