//! The order of partings, and their places.

ghost use Rattle.std.specs.Prelude.{◌≡◌, ◌<◌, ◌+◌};
ghost use Rattle.qm_spans.specs.Partings.{is_earlier, lowest_place};

use qm_geom::common_divisor;
use qm_spans::Parting;

/// Whether a parting comes before another, by the cross products.
pub(crate) fn is_earlier(first: Parting, second: Parting) -> bool
    ensures { result ≡ is_earlier first second }
{
    u128::from(first.before) * u128::from(second.behind)
        < u128::from(second.before) * u128::from(first.behind)
}

/// The place of a parting in lowest terms, over and under.
pub(crate) fn lowest_place(parting: Parting) -> (u128, u128)
    requires { 0 < parting.before + parting.behind }
    ensures { result ≡ lowest_place parting }
{
    let divisor = common_divisor(parting.before, parting.behind);
    let before = u128::from(parting.before / divisor);
    let behind = u128::from(parting.behind / divisor);
    (before, behind + before)
}
