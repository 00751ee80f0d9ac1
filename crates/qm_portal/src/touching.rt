use qm_wind::Winding;
use std::marker::Model;

/// Two leaves that touch, by the numbers of the node that parts them and of the leaves in front of it and behind it, with
/// the polygon of their contact.
#[derive(Drop)]
pub struct Touching {
    pub node: u64,
    pub front: u64,
    pub back: u64,
    pub winding: Box<Winding>,
}

impl Model for Touching {
    ghost use Rattle.qm_contacts.specs.Touching.{Touching};

    ghost Value = { Touching };

    ghost view = { λ pair. record { node = pair.node; front = pair.front; back = pair.back; winding = pair.winding.value } };
}
