use crate::survey::Survey;

/// Where a winding lies beside a plane, with the survey of its corners where it has some on both sides.
#[derive(Clone, Copy)]
pub(crate) enum Found {
    Front,
    Back,
    On,
    Across(Survey),
}
