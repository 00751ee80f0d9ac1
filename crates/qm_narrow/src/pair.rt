//! Two windings between which separators are sought.

use crate::traced::Traced;

/// A source and a pass, of which one has the edges and the other the corners of candidates. The flag tells whether the pass
/// has the edges.
#[derive(Clone, Copy)]
pub(crate) struct Pair<'a> {
    pub(crate) source: &'a Traced,
    pub(crate) pass: &'a Traced,
    pub(crate) edges: &'a Traced,
    pub(crate) others: &'a Traced,
    pub(crate) of_pass: bool,
}
