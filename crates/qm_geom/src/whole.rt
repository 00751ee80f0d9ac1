ghost use Rattle.std.specs.Prelude.{◌≡◌, ◌*ℤ◌, pos, IfSome};
ghost use Rattle.qm_space.specs.Point.{whole_point, thousandths_point, IsCoordinate, AreCoordinates, IsThousandths, AreThousandths, IsSamePlace};

/// How many thousandths a map unit has.
const THOUSANDTHS: i32 = 1000;

/// A point in thousandths of a map unit as a whole point, if it is one.
pub(crate) fn whole_point(at: [i32; 3]) -> Option<[i32; 3]>
    requires { AreThousandths at }
    ensures { IfSome result (λ whole. AreCoordinates whole × IsSamePlace (thousandths_point at) (whole_point whole)) }
{
    Some([
        whole_coordinate(at[0])?,
        whole_coordinate(at[1])?,
        whole_coordinate(at[2])?,
    ])
}

/// A coordinate in thousandths of a map unit as a whole one, if it is one.
pub(crate) fn whole_coordinate(thousandths: i32) -> Option<i32>
    requires { IsThousandths thousandths }
    ensures { IfSome result (λ whole. IsCoordinate whole × (thousandths ≡ pos 1000 *ℤ whole)) }
{
    if thousandths % THOUSANDTHS != 0 {
        return None;
    }
    Some(thousandths / THOUSANDTHS)
}
