//! The greatest common divisor by differences and shifts.

ghost use Rattle.std.specs.Prelude.{◌≡◌, ◌<◌, ◌*◌, ◌^◌, ◌%◌};
ghost use Rattle.std.specs.Int.{w64, trailing_zeros};
ghost use Rattle.qm_numbers.specs.Gcd.{gcd};

/// The greatest common divisor without a division; where one number is 0, it is the other.
pub(crate) fn divisor_by_halves(first: u64, second: u64) -> u64
    ensures { result ≡ gcd first second }
{
    if first == 0 {
        return second;
    }
    if second == 0 {
        return first;
    }
    let twos = first.trailing_zeros().min(second.trailing_zeros());
    divisor_of_odd(odd_part(first), odd_part(second)) << twos
}

/// The greatest common divisor of two odd numbers.
fn divisor_of_odd(first: u64, second: u64) -> u64
    requires first_odd { first % 2 ≡ 1 }
    requires second_odd { second % 2 ≡ 1 }
    ensures { result ≡ gcd first second }
{
    let mut one = first;
    let mut other = second;
    while one != other {
        let less = one.min(other);
        other = odd_part(one.max(other) - less);
        one = less;
    }
    one
}

/// The number without its factors of two.
pub(crate) fn odd_part(number: u64) -> u64
    requires { 0 < number }
    ensures odd { result % 2 ≡ 1 }
    ensures product { result * 2 ^ trailing_zeros w64 number ≡ number }
{
    number >> number.trailing_zeros()
}
