use qm_half_spaces::Body;
use qm_tree::Child;
use std::marker::Model;

/// A body, at the child to which it came.
#[derive(Drop)]
pub(crate) struct DueBody {
    pub(crate) child: Child,
    pub(crate) body: Body,
}

impl Model for DueBody {
    ghost use Rattle.qm_reach.specs.inner.DueBodies.{DueBody, body_at};

    ghost Value = { DueBody };

    ghost view = { λ due. body_at due.body due.child };
}
