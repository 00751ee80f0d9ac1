ghost use Rattle.std.specs.Prelude.{◌≡◌, ◌≤◌, ◌+◌};
ghost use Rattle.qm_numbers.specs.Gcd.{gcd};

/// The greatest common divisor, by Euclid's remainders; where one number is 0, it is the other.
pub fn common_divisor(first: u64, second: u64) -> u64
    ensures value { result ≡ gcd first second }
    ensures size { result ≤ first + second }
{
    let mut greater = first;
    let mut less = second;
    while less != 0 {
        let rest = greater % less;
        greater = less;
        less = rest;
    }
    greater
}
