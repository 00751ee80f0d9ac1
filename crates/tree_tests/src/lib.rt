//! Tests of trees and of the brushes that they are built from, by the calls that these crates offer.
#![tactic(auto)]

#[cfg(test)]
mod built;
#[cfg(test)]
mod contacts;
#[cfg(test)]
mod half_spaces;
#[cfg(test)]
mod halves;
#[cfg(test)]
mod hulls;
#[cfg(test)]
mod long;
#[cfg(test)]
mod moved;
#[cfg(test)]
mod surface;
#[cfg(test)]
mod trails;
#[cfg(test)]
mod worlds;
