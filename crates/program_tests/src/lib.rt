//! Tests of the program as a whole, through public calls: what `run` does to shelves and sinks in memory,
//! and what the shelf of the real folder does to files and pipes.
#![tactic(auto)]

#[cfg(test)]
mod cube;
#[cfg(test)]
mod cube_file;
#[cfg(test)]
mod cube_listing;
#[cfg(test)]
mod devices;
#[cfg(test)]
mod empty_file;
#[cfg(test)]
mod folder;
#[cfg(test)]
mod listings;
#[cfg(test)]
mod outside;
#[cfg(test)]
mod pieces;
#[cfg(test)]
mod pipe;
#[cfg(test)]
mod printed;
#[cfg(test)]
mod room_in_pieces;
#[cfg(test)]
mod sampled;
#[cfg(test)]
mod sure_forms;
#[cfg(test)]
mod tightness;
#[cfg(test)]
mod upgrades;
