//! Tests of planes, corners and windings, by the calls that these crates offer.
#![tactic(auto)]

#[cfg(test)]
mod clips;
#[cfg(test)]
mod corners;
#[cfg(test)]
mod planes;
#[cfg(test)]
mod shapes;
#[cfg(test)]
mod slow;
#[cfg(test)]
mod splits;
#[cfg(test)]
mod windings;
