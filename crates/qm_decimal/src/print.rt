ghost use Rattle.std.specs.Prelude.{◌≡◌, ◌^◌, ◌<◌, ◌≤◌, ◌++◌, ◌<ℤ◌, pos, int_lt, unsigned_abs, OnOk, OnErr};
ghost use Rattle.qm_numerals.specs.Printed.{IsNearestMillionths, millionths, printed_fraction, with_six_decimals};

use crate::backward::Backward;
use itoa::Buffer;
use std::alloc::AllocError;

const MILLION: u128 = 1_000_000;

/// Millionths as a whole number, a point and six decimals.
fn six_decimals(is_negative: bool, millionths: u128) -> Backward
    requires { millionths < 10 ^ 37 }
    ensures { result ≡ with_six_decimals is_negative millionths }
{
    let mut text = Backward::new();
    text.put_six_digits(millionths % MILLION);
    text.put(b'.');
    text.put_decimal(millionths / MILLION);
    text.put_sign(is_negative, millionths);
    text
}

/// `over / under` in millionths, to the nearest, and a half rounded up.
pub fn nearest_millionths(over: u128, under: u128) -> u128
    requires above_zero { 0 < under }
    requires small { under < 2 ^ 127 }
    requires bounded { over ≤ 2 ^ 100 }
    ensures value { result ≡ millionths over under }
    ensures bound { result < 10 ^ 37 }
{
    (2 * over * MILLION + under) / (2 * under)
}

/// Appends the text of `numerator / denominator`: a whole value as a whole number, any other with six decimals,
/// to the nearest, and a half away from zero. A value that rounds to zero has no minus sign. After an error
/// `out` is as it was.
pub fn print6(numerator: i128, denominator: i128, out: &mut Vec<u8>) -> Result<(), AllocError>
    requires above_zero { pos 0 <ℤ denominator }
    requires bounded { unsigned_abs numerator ≤ 2 ^ 100 }
    ensures ok { OnOk result (out.new.items ≡ out.old.items ++ printed_fraction (int_lt numerator (pos 0)) (unsigned_abs numerator) (unsigned_abs denominator)) }
    ensures err { OnErr result (out.new.items ≡ out.old.items) }

    // What is printed with six decimals is the nearest such number.
    ensures nearest { IsNearestMillionths (unsigned_abs numerator) (unsigned_abs denominator)
        (millionths (unsigned_abs numerator) (unsigned_abs denominator)) }
{
    let over = numerator.unsigned_abs();
    let under = denominator.unsigned_abs();
    if over % under == 0 {
        let mut buffer = Buffer::new();
        return out.extend_from_slice(buffer.format(numerator / denominator).as_bytes());
    }
    let text = six_decimals(numerator < 0, nearest_millionths(over, under));
    out.extend_from_slice(text.as_slice())
}
