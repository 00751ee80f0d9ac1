//! Memory that each try uses again.

use crate::frame::Frame;
use qm_bits::BitRow;
use qm_narrow::StepBuffers;

/// What stands ready for the next try: the frame that is filled where a chain may go on, and memory that each try uses again.
pub(crate) struct Room<'a> {
    pub(crate) next: Frame<'a>,
    pub(crate) scratch: Scratch,
}

// Written out, so that a function that owns one calls this where it ends: a derived drop would be proved anew at each exit.
impl<'a> Drop for Room<'a> {
    fn drop(self) {
        let Room {
            next: _,
            scratch: _,
        } = self;
    }
}

/// Memory that each try uses again: that of steps, a row for a cone, the leaves that a flood has left to enter, those from which
/// it is still to go on, and the words of a mask that have something new.
#[derive(Drop)]
pub(crate) struct Scratch {
    pub(crate) steps: StepBuffers,
    pub(crate) cone: BitRow,
    pub(crate) left: BitRow,
    pub(crate) due: Vec<u64>,
    pub(crate) words: Vec<u64>,
}
