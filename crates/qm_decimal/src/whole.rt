ghost use Rattle.std.specs.Prelude.{◌≡◌, ◌≤◌, ◌<◌, IfSome, IfNone};
ghost use Rattle.std.specs.Char.{digit_value};
ghost use Rattle.qm_numerals.specs.inner.Parts.{IsWholePart};
ghost use Rattle.qm_decimal.specs.inner.FirstDigits.{AreFirstDigits};
ghost use Rattle.qm_decimal.specs.declared.whole.TheConstants.{FREE_DIGITS};

/// The greatest absolute value that is read.
pub const LIMIT: u64 = 1_000_000_000;

/// The value of a digit's byte.
pub fn digit(byte: u8) -> Option<u64>
    ensures value { IfSome result (λ value. (value ≡ digit_value byte) × (value < 10)) }
    ensures none { IfNone result (10 ≤ digit_value byte) }
{
    match byte {
        b'0'..=b'9' => Some((byte - b'0') as u64),
        _ => None,
    }
}

/// How many digits have a value below the limit, whatever they are.
const FREE_DIGITS: usize = 9;

/// The value of the digits that the text begins with, kept at one above the limit where it is more, and how
/// many digits there are.
#[inline(always)]
pub fn whole_part(text: &[u8]) -> (u64, usize)
    ensures { IsWholePart text.now result.0 result.1 }
{
    let (value, count) = first_digits(text);
    if count < FREE_DIGITS {
        return (value, count);
    }
    more_digits(text, value)
}

/// The value of the digits that the text begins with, of the free ones at most, and how many they are.
#[inline(always)]
fn first_digits(text: &[u8]) -> (u64, usize)
    ensures { AreFirstDigits text.now result.0 result.1 }
{
    let most = text.len().min(FREE_DIGITS);
    let mut value = 0;
    for count in 0..most {
        match digit(text[count]) {
            Some(next) => value = value * 10 + next,
            None => return (value, count),
        }
    }
    (value, most)
}

/// What `whole_part` answers of a text that begins with all the free digits, which have this value.
#[inline(never)]
fn more_digits(text: &[u8], first: u64) -> (u64, usize)
    requires { AreFirstDigits text.now first FREE_DIGITS }
    ensures { IsWholePart text.now result.0 result.1 }
{
    let mut value = first;
    for count in FREE_DIGITS..text.len() {
        match digit(text[count]) {
            Some(next) => value = (value * 10 + next).min(LIMIT + 1),
            None => return (value, count),
        }
    }
    (value, text.len())
}
