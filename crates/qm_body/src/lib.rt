//! The facets of a cell: what its border has on its planes, and how a plane cuts them.
#![tactic(auto)]

mod facet;
mod facets;

pub use facet::{Facet, FacetLists, split_facets};
pub use facets::{facets_of, walls_of};
