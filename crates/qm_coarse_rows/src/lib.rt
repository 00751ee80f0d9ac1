//! Coarse rows of visibility: which leaves a portal may see by the planes of the portals on the way, and what that makes
//! of the leaves. This crate has definitions and laws, and no function.
#![tactic(auto)]
