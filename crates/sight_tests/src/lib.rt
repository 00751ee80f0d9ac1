//! Tests of what is seen, by public calls: separators, the steps of chains, and the rows of portals and of leaves.
#![tactic(auto)]

#[cfg(test)]
mod doorways;
#[cfg(test)]
mod large;
#[cfg(test)]
mod lines;
#[cfg(test)]
mod plain;
#[cfg(test)]
mod random;
#[cfg(test)]
mod shapes;
#[cfg(test)]
mod slow;
#[cfg(test)]
mod two_rows;
#[cfg(test)]
mod wavering;
