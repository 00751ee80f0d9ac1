//! A law of printed texts. The function does nothing: its clause is the law.

ghost use Rattle.std.specs.Prelude.{◌≡◌, ℤ, pos, ◌*ℤ◌};
ghost use Rattle.std.specs.Fmt.{signed_decimal};
ghost use Rattle.qm_numerals.specs.Printed.{signed_thousandths};

/// A whole coordinate is printed in decimal digits, behind `-` where it is below 0.
pub fn whole_coordinates()
    ensures { (n : ℤ) → signed_thousandths (pos 1000 *ℤ n) ≡ signed_decimal n }
{}
