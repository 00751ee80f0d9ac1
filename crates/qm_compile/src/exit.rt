//! The numbers with which the program ends.

ghost use Rattle.std.specs.Prelude.{◌≡◌};
ghost use Rattle.qm_statement.specs.StatusNumber.{status_number};

use qm_statement::Status;

/// The number with which the program ends.
pub fn exit_number(status: Status) -> u8
    ensures { result ≡ status_number status }
{
    match status {
        Status::Done => 0,
        Status::Usage => 2,
        Status::Leak => 3,
        Status::MapFault => 4,
        Status::ReadFault => 5,
        Status::WriteFault => 6,
        Status::Memory => 7,
        Status::TreeFault => 8,
        Status::QueryRefused => 9,
    }
}
