/// Why a token is refused.
#[derive(Clone, Copy)]
pub enum Refusal {
    /// No token of its sort may stand there.
    Unexpected,
    /// It stands in a number's place and spells none.
    BadNumber,
    /// It spells a number with a fourth decimal.
    Fraction,
    /// It spells a number outside the closed cube.
    CoordinateRange,
    /// It ends three points that lie on one line.
    NoNormal,
    /// It ends three points that do not, and the plane through them is too fine.
    PlaneTooFine,
    /// It ends a brush that has no face.
    NoFaces,
    /// It is the value of an origin, and gives no point of the world.
    BadOrigin,
}
