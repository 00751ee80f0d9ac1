ghost use Rattle.std.specs.Prelude.{◌≡◌, ◌==◌, ◌≤◌, ◌<◌, ◌^◌, length, IfSome, IfNone};
ghost use Rattle.std.specs.Char.{is_ascii_digit};
ghost use Rattle.std.specs.List.{list_all};
ghost use Rattle.std.specs.Str.Parse.{digits_value, AllDigits};
ghost use Rattle.qm_numerals.specs.inner.Parts.{IsDecimalAnswer, IsZerosAnswer};

use crate::whole::digit;
use qm_numerals::NumberFault;

/// Ten to that power.
pub fn power_of_ten(exponent: usize) -> u64
    requires { exponent ≤ 6 }
    ensures { result ≡ 10 ^ exponent }
{
    match exponent {
        0 => 1,
        1 => 10,
        2 => 100,
        3 => 1_000,
        4 => 10_000,
        5 => 100_000,
        _ => 1_000_000,
    }
}

/// The value of at most six digits.
fn few_digits(text: &[u8]) -> Option<u64>
    requires { length text.now ≤ 6 }
    ensures digits { IfSome result (λ value. AllDigits 10 text.now × (value ≡ digits_value 10 text.now)) }
    ensures none { IfNone result (AllDigits 10 text.now → ⊥) }
{
    let mut value = 0;
    for byte in text {
        value = value * 10 + digit(*byte)?;
    }
    Some(value)
}

fn all_zeros(text: &[u8]) -> bool
    ensures { result ≡ list_all (λ byte. byte == 48) text.now }
{
    text.iter().all(|byte| *byte == b'0')
}

fn all_digits(text: &[u8]) -> bool
    ensures { result ≡ list_all is_ascii_digit text.now }
{
    text.iter().all(u8::is_ascii_digit)
}

/// Answers a text that should be digits 0 and nothing else.
fn zeros(text: &[u8]) -> Result<(), NumberFault>
    ensures { IsZerosAnswer text.now result }
{
    if all_zeros(text) {
        Ok(())
    } else if all_digits(text) {
        Err(NumberFault::TooFine)
    } else {
        Err(NumberFault::Form)
    }
}

/// The decimals in units of `10^-places`.
pub fn decimal_part(text: &[u8], places: u8) -> Result<u64, NumberFault>
    requires { places ≤ 6 }
    ensures { IsDecimalAnswer text.now places result }
{
    if text.is_empty() {
        return Ok(0);
    }
    let places = places as usize;
    let kept = text.len().min(places);
    let value = few_digits(&text[..kept]).ok_or(NumberFault::Form)?;
    zeros(&text[kept..])?;
    Ok(value * power_of_ten(places - kept))
}
