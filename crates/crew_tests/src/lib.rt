//! Tests of rows that several workers find over one board, by public calls.
#![tactic(auto)]

#[cfg(test)]
mod corner;
#[cfg(test)]
mod gates;
#[cfg(test)]
mod mazes;
#[cfg(test)]
mod recorded;
#[cfg(test)]
mod reuse;
#[cfg(test)]
mod runs;
#[cfg(test)]
mod workers;
