ghost use Rattle.std.specs.Prelude.{◌≡◌, ◌*ℤ◌};
ghost use Rattle.qm_rooms.specs.Boxes.{unit};

use std::marker::Model;

/// One map unit, in thousandths.
const UNIT: i32 = 1_000;

/// A box of stone, from its least corner to its greatest, in map units.
#[derive(Clone, Copy)]
pub(crate) struct StoneBox {
    pub west: i16,
    pub south: i16,
    pub bottom: i16,
    pub east: i16,
    pub north: i16,
    pub top: i16,
}

impl Model for StoneBox {
    ghost use Rattle.qm_rooms.specs.Boxes.{StoneBox};

    ghost Value = { StoneBox };

    ghost view = { λ b. record { west = b.west; south = b.south; bottom = b.bottom; east = b.east; north = b.north; top = b.top } };

    ghost inverse = { λ b. record { west = b.west; south = b.south; bottom = b.bottom; east = b.east; north = b.north; top = b.top } };
}

impl StoneBox {
    ghost use Rattle.std.specs.Prelude.{◌≡◌};
    ghost use Rattle.qm_rooms.specs.Boxes.{face_points};

    /// Three points of each face, in thousandths: to the west, east, south, north, bottom and top.
    #[tactic(auto, unfolding(qm_rooms::specs::Boxes::face_points))]
    pub(crate) fn face_points(&self) -> [[[i32; 3]; 3]; 6]
        ensures { result ≡ face_points self.now }
    {
        let west = thousandths(self.west);
        let east = thousandths(self.east);
        let south = thousandths(self.south);
        let north = thousandths(self.north);
        let bottom = thousandths(self.bottom);
        let top = thousandths(self.top);
        [
            [[west, 0, 0], [west, UNIT, 0], [west, 0, UNIT]],
            [[east, 0, 0], [east, 0, UNIT], [east, UNIT, 0]],
            [[0, south, 0], [0, south, UNIT], [UNIT, south, 0]],
            [[0, north, 0], [UNIT, north, 0], [0, north, UNIT]],
            [[0, 0, bottom], [UNIT, 0, bottom], [0, UNIT, bottom]],
            [[0, 0, top], [0, UNIT, top], [UNIT, 0, top]],
        ]
    }
}

/// A place in map units, in thousandths.
fn thousandths(at: i16) -> i32
    ensures { result ≡ unit *ℤ at }
{
    UNIT * i32::from(at)
}
