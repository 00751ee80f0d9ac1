//! Finds separators of openings, goes steps through them and asks which may still be passed, and prints how many there
//! were. `bench/separators.sh` times it.
//!
//! The words are what is done (`separators`, `step` or `may_pass`), a shape (`whole`, `turned`, `fractional` or `hexagons`)
//! and how many rounds of it; without words each is done once.
#![tactic(auto)]

mod openings;
mod phases;
mod tally;

use openings::Shape;
use phases::Phase;
use std::{env, io};
use tally::Tally;

fn main(rt: HostRuntime) -> io::Result<()> {
    let alloc = rt.alloc();
    let mut words = env::args(&rt)?.skip(1);
    let first = words.next();
    let second = words.next();
    let rounds = words
        .next()
        .and_then(|word| word.as_str().parse::<u32>().ok())
        .unwrap_or(1);
    let phase = first.as_ref().map_or("", |word| word.as_str());
    let shape = second.as_ref().map_or("", |word| word.as_str());
    for one in [Phase::Separators, Phase::Step, Phase::MayPass] {
        for kind in [
            Shape::Whole,
            Shape::Turned,
            Shape::Fractional,
            Shape::Hexagons,
        ] {
            if phase.is_empty() || (phase == one.name() && shape == kind.name()) {
                let Tally {
                    calls,
                    planes,
                    blocked,
                } = one.run(alloc, kind, rounds)?;
                let name = one.name();
                let of = kind.name();
                println!(rt; "{name} {of}: calls {calls}, planes {planes}, blocked {blocked}")?;
            }
        }
    }
    Ok(())
}
