ghost use Rattle.std.specs.Prelude.{◌≡◌, List, None, MatchOption};
ghost use Rattle.qm_mapfile.specs.declared.entity.Pair.{Pair};
ghost use Rattle.qm_grammar.specs.Origin.{origin_key, value_of, HasGoodOrigin};
ghost use Rattle.qm_grammar.specs.OriginPoint.{IsOriginPoint};

use crate::origin::{first_origin, origin_of};
use qm_geom::Point;
use qm_mapfile::Entity;

/// An entity that may stand at a point.
pub trait EntityOrigin {
    /// Its pairs, in order.
    ghost pairs: { Self → List Pair };

    /// The point that the first pair with the key `origin` gives, in map units: a million of its parts make one. `None`
    /// where no pair has that key. Entities that `parse` answers meet what is required, but for the world.
    fn origin(&self) -> Option<Point>
        requires { HasGoodOrigin (pairs self.now) }
        ensures { MatchOption result
            (value_of origin_key (pairs self.now) ≡ None)
            (λ point. IsOriginPoint (pairs self.now) point) };
}

impl EntityOrigin for Entity {
    ghost pairs = { λ entity. entity.pairs };

    fn origin(&self) -> Option<Point> {
        let value = first_origin(self.pairs.as_slice())?;
        origin_of(value)
    }
}
