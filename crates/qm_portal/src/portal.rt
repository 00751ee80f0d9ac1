use qm_wind::Pane;
use std::marker::Model;

/// A portal: the pane through which one goes, and both leaves by their numbers.
#[derive(Drop)]
pub(crate) struct Portal {
    pub(crate) pane: Pane,
    pub(crate) from: u64,
    pub(crate) to: u64,
}

impl Model for Portal {
    ghost use Rattle.qm_contacts.specs.Portals.{Portal};

    ghost Value = { Portal };

    ghost view = { λ portal. record { winding = portal.pane.winding; into = portal.pane.into; from = portal.from; to = portal.to } };
}
