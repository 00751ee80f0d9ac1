//! Numbers as they are spelled in a listing.

ghost use Rattle.std.specs.Prelude.{◌≡◌, ◌≤◌, ◌<◌, ◌^◌, ◌+◌, length, drop, Some};
ghost use Rattle.std.specs.List.{list_all, prefix_len};
ghost use Rattle.std.specs.Char.{is_ascii_digit};
ghost use Rattle.std.specs.Str.Parse.{digits_value, AllDigits};
ghost use Rattle.qm_listing.specs.Numerals.{is_number_byte, numeral_ahead};
ghost use Rattle.qm_listing.specs.Numbers.{is_count_numeral, count_of_numeral, with_sign, signed_coordinate, coordinate_of_parts, unsigned_coordinate, coordinate_of_numeral};

use qm_listing::Coordinate;

/// The most digits of a count.
const MOST_DIGITS: usize = 18;

const MILLION: u128 = 1_000_000;

/// The greatest absolute value of a coordinate, in millionths.
const MOST_MILLIONTHS: u128 = 32_768_000_000;

/// How many decimals a coordinate has that is not whole.
const DECIMALS: usize = 6;

/// A byte that can stand in a number.
fn is_number_byte(byte: u8) -> bool
    ensures { result ≡ is_number_byte byte }
{
    byte.is_ascii_digit() || byte == b'-' || byte == b'.'
}

/// The longest run of such bytes at a place: none, where that is past the end.
#[tactic(auto, unfolding(qm_listing::specs::Numerals::numeral_ahead))]
pub(crate) fn numeral_ahead(text: &[u8], at: usize) -> &[u8]
    ensures value { result.now ≡ numeral_ahead (drop at text.now) }
    ensures end { at + length result.now < 2 ^ 64 }
{
    let rest = &text[at.min(text.len())..];
    &rest[..number_length(rest)]
}

fn number_length(text: &[u8]) -> usize
    ensures value { result ≡ prefix_len is_number_byte text.now }
    ensures within { result ≤ length text.now }
{
    text.iter()
        .take_while(|byte| is_number_byte(**byte))
        .count()
}

fn digits_length(text: &[u8]) -> usize
    ensures value { result ≡ prefix_len is_ascii_digit text.now }
    ensures within { result ≤ length text.now }
{
    text.iter().take_while(|byte| byte.is_ascii_digit()).count()
}

fn all_digits(text: &[u8]) -> bool
    ensures { result ≡ list_all is_ascii_digit text.now }
{
    text.iter().all(u8::is_ascii_digit)
}

/// Whether a numeral spells a count: digits, not too many, and no 0 before another digit.
#[tactic(auto, unfolding(qm_listing::specs::Numbers::is_count_numeral))]
fn is_count_numeral(numeral: &[u8]) -> bool
    ensures { result ≡ is_count_numeral numeral.now }
{
    if numeral.is_empty() || numeral.len() > MOST_DIGITS || !all_digits(numeral) {
        return false;
    }
    numeral.len() == 1 || numeral[0] != b'0'
}

/// The count that a numeral spells.
#[tactic(auto, unfolding(qm_listing::specs::Numbers::count_of_numeral))]
pub(crate) fn count_of(numeral: &[u8]) -> Option<u64>
    ensures { result ≡ count_of_numeral numeral.now }
{
    if is_count_numeral(numeral) {
        Some(digits_value(numeral))
    } else {
        None
    }
}

/// The number that not too many digits spell.
fn digits_value(digits: &[u8]) -> u64
    requires digits { AllDigits 10 digits.now }
    requires few { length digits.now ≤ 18 }
    ensures { result ≡ digits_value 10 digits.now }
{
    let mut value = 0;
    for byte in digits {
        value = value * 10 + u64::from(*byte - b'0');
    }
    value
}

/// The coordinate that a numeral spells.
#[tactic(auto, unfolding(qm_listing::specs::Numbers::coordinate_of_numeral))]
pub(crate) fn coordinate_of(numeral: &[u8]) -> Option<Coordinate>
    ensures { result ≡ coordinate_of_numeral numeral.now }
{
    match numeral {
        [] => None,
        [b'-', unsigned @ ..] => unsigned_coordinate(true, unsigned),
        _ => unsigned_coordinate(false, numeral),
    }
}

/// The coordinate of a numeral without its sign.
#[tactic(auto, unfolding(qm_listing::specs::Numbers::unsigned_coordinate))]
fn unsigned_coordinate(is_negative: bool, numeral: &[u8]) -> Option<Coordinate>
    ensures { result ≡ unsigned_coordinate is_negative numeral.now }
{
    let count = digits_length(numeral);
    let whole = count_of(&numeral[..count])?;
    coordinate_of_parts(is_negative, whole, &numeral[count..])
}

/// The coordinate of what stands before the point, and of what stands from the point on.
fn coordinate_of_parts(is_negative: bool, whole: u64, tail: &[u8]) -> Option<Coordinate>
    requires { whole < 10 ^ 18 }
    ensures { result ≡ coordinate_of_parts is_negative (Some whole) tail.now }
{
    let whole = u128::from(whole) * MILLION;
    match tail {
        [] => signed_coordinate(is_negative, true, whole),
        [b'.', decimals @ ..] => {
            if decimals.len() != DECIMALS || !all_digits(decimals) {
                return None;
            }
            signed_coordinate(
                is_negative,
                false,
                whole + u128::from(digits_value(decimals)),
            )
        }
        _ => None,
    }
}

/// The coordinate of a sign and of millionths.
fn signed_coordinate(is_negative: bool, whole: bool, millionths: u128) -> Option<Coordinate>
    ensures { result ≡ signed_coordinate is_negative whole millionths }
{
    if millionths > MOST_MILLIONTHS || (is_negative && millionths == 0) {
        return None;
    }
    Some(Coordinate {
        millionths: with_sign(is_negative, millionths as u64),
        whole,
    })
}

/// A number with its sign.
pub(crate) fn with_sign(is_negative: bool, magnitude: u64) -> i64
    requires { magnitude < 2 ^ 63 }
    ensures { result ≡ with_sign is_negative magnitude }
{
    let magnitude = magnitude as i64;
    if is_negative { -magnitude } else { magnitude }
}
