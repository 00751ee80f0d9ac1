//! Whole numbers: signs, products, identities, divisors, ratios, and what numbers of so many bits hold. This crate
//! has definitions and laws alone, and no function.
#![tactic(auto)]
