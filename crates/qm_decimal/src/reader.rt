ghost use Rattle.std.specs.Prelude.{◌≡◌, ◌≤◌, ◌<◌, ◌^◌, ℕ, pos, neg_ℤ, if◌then◌else◌, List, Result, IfSome, IfNone};
ghost use Rattle.qm_numerals.specs.Answer.{IsAnswer};
ghost use Rattle.qm_numerals.specs.Computed.{read_at};
ghost use Rattle.qm_numerals.specs.Number.{Number, SpellsNumber, IsTail};
ghost use Rattle.qm_numerals.specs.inner.Parts.{IsMagnitudeAnswer, IsSignSplit};

use crate::decimals::{decimal_part, power_of_ten};
use crate::whole::{LIMIT, whole_part};
use qm_numerals::{Fraction, NumberFault};

/// The text without its sign, and whether that is `-`.
fn split_sign(text: &[u8]) -> (bool, &[u8])
    ensures { IsSignSplit text.now result.0 result.1.now }
{
    match text {
        [b'-', unsigned @ ..] => (true, unsigned),
        [b'+', unsigned @ ..] => (false, unsigned),
        _ => (false, text),
    }
}

/// The magnitude with its sign.
fn with_sign(is_negative: bool, magnitude: u64) -> i64
    requires { magnitude < 2 ^ 63 }
    ensures { result ≡ (if is_negative then neg_ℤ (pos magnitude) else pos magnitude) }
{
    let magnitude = magnitude as i64;
    if is_negative { -magnitude } else { magnitude }
}

/// The decimals, where what stands behind the whole digits is a point and then these, or nothing.
fn after_point(tail: &[u8]) -> Option<&[u8]>
    ensures decimals { IfSome result (λ decimals. IsTail tail.now decimals.now) }
    ensures none { IfNone result ((decimals : List ℕ) → IsTail tail.now decimals → ⊥) }
{
    match tail {
        [] => Some(tail),
        [b'.', decimals @ ..] => Some(decimals),
        _ => None,
    }
}

/// An unsigned number in units of `10^-places`.
#[inline(always)]
fn magnitude(text: &[u8], places: u8) -> Result<u64, NumberFault>
    requires { places ≤ 6 }
    ensures { IsMagnitudeAnswer text.now places result }
{
    let (whole, count) = whole_part(text);
    let decimals = after_point(&text[count..]).ok_or(NumberFault::Form)?;
    if count + decimals.len() == 0 {
        return Err(NumberFault::Form);
    }
    let part = decimal_part(decimals, places)?;
    let unit = power_of_ten(places as usize);
    let magnitude = whole * unit + part;
    if magnitude > LIMIT * unit {
        Err(NumberFault::TooLarge)
    } else {
        Ok(magnitude)
    }
}

/// The number that a text spells, exactly: an optional `+` or `-`, digits, and optionally `.` and digits, with
/// one digit at least. The answer is in units of `10^-places`.
///
/// # Errors
///
/// `Form` where the text is not of that form; else `TooFine` where a digit other than 0 stands past that many
/// decimals; else `TooLarge` where the absolute value is above 1,000,000,000.
#[inline(always)]
pub fn read(text: &[u8], places: u8) -> Result<Fraction, NumberFault>
    requires { places ≤ 6 }
    ensures answer { IsAnswer text.now places result }

    // The same answer, computed.
    ensures value { result ≡ read_at text.now places }

    // No other answer is right, so each comes exactly where its definition holds.
    ensures only { (other : Result Fraction NumberFault) → IsAnswer text.now places other → other ≡ result }

    // A text spells one number at most.
    ensures one_number { (a b : Number) → SpellsNumber text.now a → SpellsNumber text.now b → a ≡ b }
{
    let (is_negative, unsigned) = split_sign(text);
    let magnitude = magnitude(unsigned, places)?;
    Ok(Fraction {
        numerator: with_sign(is_negative, magnitude),
        places,
    })
}
