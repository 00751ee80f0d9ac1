//! Fractions as text: a whole one as a whole number, any other with six decimals.

ghost use Rattle.std.specs.Prelude.{◌≡◌, ◌++◌, ◌∷◌, [], ◌≤◌, ◌^◌, ◌+◌, ◌%◌, ◌<ℤ◌, pos, int_lt, unsigned_abs, decimal, OnOk, string_bytes};
ghost use Rattle.qm_numerals.specs.Printed.{printed_fraction, shown_sign, with_six_decimals, last_digits};

use qm_decimal::nearest_millionths;
use std::alloc::AllocError;

const MILLION: u128 = 1_000_000;

/// Adds `over / under` with a space behind it.
pub(crate) fn put_spaced_fraction(
    text: &mut String,
    over: i128,
    under: i128,
) -> Result<(), AllocError>
    requires above_zero { pos 0 <ℤ under }
    requires bounded { unsigned_abs over ≤ 2 ^ 100 }
    ensures { OnOk result (string_bytes text.new ≡ string_bytes text.old ++ (printed_fraction (int_lt over (pos 0)) (unsigned_abs over) (unsigned_abs under) ++ 32 ∷ [])) }
{
    put_fraction(text, over, under)?;
    text.push(' ')
}

/// Adds `over / under`.
fn put_fraction(text: &mut String, over: i128, under: i128) -> Result<(), AllocError>
    requires above_zero { pos 0 <ℤ under }
    requires bounded { unsigned_abs over ≤ 2 ^ 100 }
    ensures { OnOk result (string_bytes text.new ≡ string_bytes text.old ++ printed_fraction (int_lt over (pos 0)) (unsigned_abs over) (unsigned_abs under)) }
{
    let numerator = over.unsigned_abs();
    let denominator = under.unsigned_abs();
    if numerator % denominator == 0 {
        put_whole(text, over < 0, numerator / denominator)
    } else {
        put_millionths(text, over < 0, nearest_millionths(numerator, denominator))
    }
}

/// Adds a whole number.
fn put_whole(text: &mut String, negative: bool, number: u128) -> Result<(), AllocError>
    ensures { OnOk result (string_bytes text.new ≡ string_bytes text.old ++ (shown_sign negative number ++ decimal number)) }
{
    put_sign(text, negative, number)?;
    write!(text, "{number}")
}

/// Adds so many millionths, with six decimals.
fn put_millionths(text: &mut String, negative: bool, number: u128) -> Result<(), AllocError>
    ensures { OnOk result (string_bytes text.new ≡ string_bytes text.old ++ with_six_decimals negative number) }
{
    put_sign(text, negative, number)?;
    let whole = number / MILLION;
    write!(text, "{whole}.")?;
    put_decimals(text, (number % MILLION) as u32)
}

/// Adds the sign of a number that is shown as this one.
fn put_sign(text: &mut String, negative: bool, shown: u128) -> Result<(), AllocError>
    ensures { OnOk result (string_bytes text.new ≡ string_bytes text.old ++ shown_sign negative shown) }
{
    if negative && shown > 0 {
        text.push('-')?;
    }
    Ok(())
}

/// Adds six digits.
fn put_decimals(text: &mut String, number: u32) -> Result<(), AllocError>
    ensures { OnOk result (string_bytes text.new ≡ string_bytes text.old ++ last_digits 6 number) }
{
    let tens = number / 10;
    let hundreds = tens / 10;
    let thousands = hundreds / 10;
    let ten_thousands = thousands / 10;
    let hundred_thousands = ten_thousands / 10;
    put_digit(text, hundred_thousands)?;
    put_digit(text, ten_thousands)?;
    put_digit(text, thousands)?;
    put_digit(text, hundreds)?;
    put_digit(text, tens)?;
    put_digit(text, number)
}

/// Adds the last digit of a number.
fn put_digit(text: &mut String, number: u32) -> Result<(), AllocError>
    ensures { OnOk result (string_bytes text.new ≡ string_bytes text.old ++ (48 + number % 10) ∷ []) }
{
    text.push(char::from(b'0' + (number % 10) as u8))
}
