/// Why a text is no map. Lines count from 1.
#[derive(Clone, Copy, Debug, PartialEq, Eq)]
pub enum MapFault {
    /// The text has more than 67,108,864 bytes.
    TextTooLong { line: u64 },
    /// A quote opens a token and is never closed.
    UnclosedQuote { line: u64 },
    /// No token of this sort may stand there.
    Unexpected { line: u64 },
    /// The text ends inside an entity.
    EndInside { line: u64 },
    /// A word in a number's place spells none.
    BadNumber { line: u64 },
    /// A coordinate has a fourth decimal.
    Fraction { line: u64 },
    /// A coordinate is outside the closed cube.
    CoordinateRange { line: u64 },
    /// The three points of a face lie on one line.
    NoNormal { line: u64 },
    /// A brush has no face.
    NoFaces { line: u64 },
    /// The origin of an entity is no point of the world.
    BadOrigin { line: u64 },
    /// The text has no entity.
    NoEntity { line: u64 },
    /// The plane through the three points of a face is too fine.
    PlaneTooFine { line: u64 },
    /// Memory ran out.
    Memory,
}
