ghost use Rattle.std.specs.Prelude.{◌≡◌, ◌<◌, [], true, false, length, All, IfOk, MatchOption, OnOk, OnErr};
ghost use Rattle.qm_space.specs.Point.{IsThousandths};
ghost use Rattle.qm_grammar.specs.Slots.{points_of, mapping_of, face_of};
ghost use Rattle.qm_grammar.specs.inner.Machine.{give_plane, plane_refusal};

use qm_geom::{Plane, ThroughFault};
use qm_grammar::Refusal;
use qm_lists::Items;
use qm_mapfile::{Face, Mapping, Text};
use std::alloc::AllocError;

/// How many words the mapping with axes has.
const AXES_WORDS: usize = 11;

/// Nine coordinates as three points.
fn points_of(numbers: &[i32]) -> [[i32; 3]; 3]
    requires { length numbers.now ≡ 9 }
    ensures { result ≡ points_of numbers.now }
{
    match numbers {
        [ax, ay, az, bx, by, bz, cx, cy, cz] => {
            [[*ax, *ay, *az], [*bx, *by, *bz], [*cx, *cy, *cz]]
        }
        _ => unreachable!(),
    }
}

/// Why the three points of nine coordinates give no plane, if they give none.
pub(crate) fn refusal_of_points(numbers: &[i32]) -> Option<Refusal>
    requires nine { length numbers.now ≡ 9 }
    requires in_cube { All IsThousandths numbers.now }
    ensures { MatchOption result (give_plane (points_of numbers.now) ≡ true)
        (λ reason. (give_plane (points_of numbers.now) ≡ false) × (reason ≡ plane_refusal (points_of numbers.now))) }
{
    let [p0, p1, p2] = points_of(numbers);
    match Plane::fault_through(p0, p1, p2) {
        None => None,
        Some(ThroughFault::NoNormal) => Some(Refusal::NoNormal),
        Some(ThroughFault::TooFine) => Some(Refusal::PlaneTooFine),
    }
}

/// The mapping of these words.
fn mapping_of(words: Vec<Text>) -> Mapping
    ensures { result ≡ mapping_of words.items }
{
    if words.len() == AXES_WORDS {
        Mapping::Valve(Items::from_vec(words))
    } else {
        Mapping::Standard(Items::from_vec(words))
    }
}

/// The face of nine coordinates, and of texts of which the first is the texture. The texts are taken out, and the room
/// that they had stays for others. After an error they are as they were.
pub(crate) fn face_of(numbers: &[i32], texts: &mut Vec<Text>) -> Result<Face, AllocError>
    requires nine { length numbers.now ≡ 9 }
    requires texture { 0 < length texts.old.items }
    ensures face { IfOk result (λ face. face ≡ face_of numbers.now texts.old.items) }
    ensures taken { OnOk result (texts.new.items ≡ []) }
    ensures err { OnErr result (texts.new.items ≡ texts.old.items) }
{
    let words = texts.split_off(1)?;
    let texture = texts.swap_remove(0);
    Ok(Face {
        points: points_of(numbers),
        texture,
        mapping: mapping_of(words),
    })
}
