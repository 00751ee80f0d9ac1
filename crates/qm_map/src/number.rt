ghost use Rattle.std.specs.Prelude.{◌≡◌, IfOk};
ghost use Rattle.qm_space.specs.Point.{IsThousandths};
ghost use Rattle.qm_grammar.specs.inner.Machine.{coordinate_of};

use qm_grammar::Refusal;
use qm_numerals::NumberFault;
use qm_space::WORLD_EXTENT;

/// How many decimals a coordinate may have.
const PLACES: u8 = 3;

/// How far a coordinate may be from 0, in thousandths.
const EXTENT: i64 = 1_000 * WORLD_EXTENT as i64;

/// The coordinate that a word spells, in thousandths.
#[inline(always)]
#[tactic(auto, unfolding(qm_grammar::specs::inner::Machine::coordinate_of))]
pub(crate) fn coordinate(word: &[u8]) -> Result<i32, Refusal>
    ensures value { result ≡ coordinate_of word.now }
    ensures in_cube { IfOk result IsThousandths }
{
    match qm_decimal::read(word, PLACES) {
        Ok(fraction) => {
            let number = fraction.numerator;
            if -EXTENT <= number && number <= EXTENT {
                Ok(number as i32)
            } else {
                Err(Refusal::CoordinateRange)
            }
        }
        Err(NumberFault::Form) => Err(Refusal::BadNumber),
        Err(NumberFault::TooFine) => Err(Refusal::Fraction),
        Err(NumberFault::TooLarge) => Err(Refusal::CoordinateRange),
    }
}
