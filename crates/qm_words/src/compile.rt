//! The words behind `compile`.

ghost use Rattle.std.specs.Prelude.{◌≡◌, ◌∷◌, ℕ, Some, codes, Bool, IfSome, IfNone, IsTrue, option_map, if◌then◌else◌, ◌↔◌};
ghost use Rattle.clap.specs.Matches.{found_of};
ghost use Rattle.clap.specs.Walk.{one_of, rows_of};
ghost use Rattle.qm_commands.specs.FileNames.{AreDifferent};
ghost use Rattle.qm_commands.specs.Options.{AreThreads};
ghost use Rattle.qm_words.specs.SeenWords.{bytes_of_words, names_of};
ghost use Rattle.qm_words.specs.inner.Answered.{IsCompileAnswer, IsOrderFor};
ghost use Rattle.qm_words.specs.inner.TwoWords.{HasPair};

use crate::found::{found_pair, found_text};
use crate::lines::compile_matches;
use crate::numbers::count;
use crate::order::{Order, WordsFault};
use crate::spelling::are_compile_words;
use clap::ArgMatches;
use std::alloc::Global;

/// The order of the words behind `compile`.
pub fn compile_order<'a>(alloc: Global, words: &'a [&'a str]) -> Result<Order<'a>, WordsFault>
    ensures { IsOrderFor (codes "compile" ∷ bytes_of_words words.entry.now) result }
{
    if !are_compile_words(words) {
        return Err(WordsFault::Usage);
    }
    match compile_matches(alloc, words) {
        Err(fault) => Err(fault),
        Ok(matches) => asked_order(&matches),
    }
}

/// The order of what the parser has found, where its names are different and its number of workers is one.
fn asked_order<'a>(matches: &ArgMatches<'a>) -> Result<Order<'a>, WordsFault>
    ensures { IsCompileAnswer (rows_of (found_of matches.now)) result }
{
    match found_pair(matches, "map", "out") {
        None => Err(WordsFault::Usage),
        Some((map, out)) => named_order(matches, map, out),
    }
}

/// The same where its first two names are these.
fn named_order<'a>(
    matches: &ArgMatches<'a>,
    map: &'a str,
    out: &'a str,
) -> Result<Order<'a>, WordsFault>
    requires { HasPair (codes "map") (codes "out") (rows_of (found_of matches.now)) map.now out.now }
    ensures { IsCompileAnswer (rows_of (found_of matches.now)) result }
{
    let prt = found_text(matches, "prt");
    if !are_different(map, out, prt) {
        return Err(WordsFault::Usage);
    }
    match threads(found_text(matches, "threads")) {
        None => Err(WordsFault::Usage),
        Some(threads) => Ok(Order::Compile {
            map,
            out,
            prt,
            threads,
            fast: has_flag(matches, "fast"),
            hulls: has_flag(matches, "hulls"),
            models: has_flag(matches, "models"),
            faces: has_flag(matches, "faces"),
        }),
    }
}

/// Whether an option without a value was found.
fn has_flag(matches: &ArgMatches<'_>, id: &str) -> bool
    ensures { (given : Bool) → one_of id.now (rows_of (found_of matches.now)) ≡ Some (if given then codes "true" else codes "false") → result ≡ given }
{
    matches.get_flag(id)
}

/// How many workers are asked for: one where nothing is said.
fn threads(text: Option<&str>) -> Option<u8>
    ensures some { IfSome result (λ n. AreThreads (option_map (λ t. t.now) text.entry) n) }
    ensures none { IfNone result ((n : ℕ) → AreThreads (option_map (λ t. t.now) text.entry) n → ⊥) }
{
    match text {
        None => Some(1),
        Some(text) => count(text),
    }
}

/// Whether the names of files are different from one another.
pub fn are_different(map: &str, out: &str, prt: Option<&str>) -> bool
    ensures { IsTrue result ↔ AreDifferent (names_of map.now out.now (option_map (λ name. name.now) prt.entry)) }
{
    if map == out {
        return false;
    }
    match prt {
        None => true,
        Some(name) => map != name && out != name,
    }
}
