use qm_contents::Contents;

/// A brush of a list: what fills it, whether it is full, and where its faces stand among the faces of all brushes.
#[derive(Clone, Copy)]
pub(crate) struct Entry {
    pub(crate) contents: Contents,
    pub(crate) full: bool,
    pub(crate) start: usize,
    pub(crate) end: usize,
}
