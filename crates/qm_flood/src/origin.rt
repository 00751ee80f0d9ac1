use qm_geom::Point;
use std::marker::Model;

/// Where an entity stands, by its number in the map.
#[derive(Clone, Copy)]
pub struct Origin {
    pub entity: u64,
    pub point: Point,
}

impl Model for Origin {
    ghost use Rattle.qm_contacts.specs.Leak.{Origin};

    ghost Value = { Origin };

    ghost view = { λ origin. record { entity = origin.entity; point = origin.point } };

    ghost inverse = { λ origin. record { entity = origin.entity; point = origin.point } };
}
