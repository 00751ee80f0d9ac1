//! Tests of MAP texts, of rows in runs, of tree files and of portal listings, by the calls that these crates offer.
#![tactic(auto)]

#[cfg(test)]
mod fractions;
#[cfg(test)]
mod listing_altered;
#[cfg(test)]
mod listing_of_rooms;
#[cfg(test)]
mod listing_printed;
#[cfg(test)]
mod maps;
#[cfg(test)]
mod pieces;
#[cfg(test)]
mod runs;
#[cfg(test)]
mod small;
