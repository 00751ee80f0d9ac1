/// A number with a few decimals: `numerator / 10^places`.
#[derive(Clone, Copy)]
pub struct Fraction {
    pub numerator: i64,
    pub places: u8,
}

/// Why a text is not read as a number.
#[derive(Clone, Copy)]
pub enum NumberFault {
    /// It is not an optional sign, digits, and optionally a point and digits, with one digit at least.
    Form,
    /// A digit other than 0 stands past the last place that was asked for.
    TooFine,
    /// Its absolute value is above 1,000,000,000.
    TooLarge,
}
