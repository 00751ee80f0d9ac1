/// Why three points give no plane.
#[derive(Clone, Copy)]
pub enum ThroughFault {
    /// They lie on one line, so that no plane is the plane through them.
    NoNormal,
    /// Their plane is too fine: in lowest terms some component of its normal is above 2^26 in absolute value.
    TooFine,
}
