//! Clips a stream of windings by planes, and prints how many were left whole, how many were gone, and
//! how many were cut, with the corners that the cut ones have. `bench/windings.sh` times it.
//!
//! The words are the name of a stream and how many rounds of it; without words each stream is run for one.
#![tactic(auto)]

mod planes;
mod streams;
mod tally;
mod tree;

use std::{env, io};
use streams::Stream;
use tally::Tally;

fn main(rt: HostRuntime) -> io::Result<()> {
    let alloc = rt.alloc();
    let mut words = env::args(&rt)?.skip(1);
    let name = words.next();
    let clips = words
        .next()
        .and_then(|word| word.as_str().parse::<u32>().ok())
        .unwrap_or(1);
    let wanted = name.as_ref().map_or("", |name| name.as_str());
    for stream in [
        Stream::Squares,
        Stream::Octagons,
        Stream::Misses,
        Stream::Chains,
        Stream::Tree,
    ] {
        if wanted.is_empty() || wanted == stream.name() {
            let Tally {
                whole,
                gone,
                cut,
                corners,
            } = stream.run(alloc, clips)?;
            let name = stream.name();
            println!(rt; "{name}: whole {whole}, gone {gone}, cut {cut} with {corners} corners")?;
        }
    }
    Ok(())
}
