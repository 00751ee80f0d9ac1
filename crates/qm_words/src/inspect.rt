//! The words behind `inspect`.

ghost use Rattle.std.specs.Prelude.{◌∷◌, codes};
ghost use Rattle.clap.specs.Matches.{found_of};
ghost use Rattle.clap.specs.Walk.{rows_of};
ghost use Rattle.qm_words.specs.SeenWords.{bytes_of_words};
ghost use Rattle.qm_words.specs.inner.Answered.{IsOrderFor};
ghost use Rattle.qm_words.specs.inner.TreeAndQueries.{IsAnswerFor};

use crate::found::{found_text, values_of};
use crate::lines::inspect_matches;
use crate::order::{Order, WordsFault};
use crate::queries::queries_of;
use crate::spelling::are_plain_words;
use clap::ArgMatches;
use std::alloc::Global;

/// The order of the words behind `inspect`.
pub fn inspect_order<'a>(alloc: Global, words: &'a [&'a str]) -> Result<Order<'a>, WordsFault>
    ensures { IsOrderFor (codes "inspect" ∷ bytes_of_words words.entry.now) result }
{
    if !are_plain_words(words) {
        return Err(WordsFault::Usage);
    }
    match inspect_matches(alloc, words) {
        Err(fault) => Err(fault),
        Ok(matches) => asked_answers(alloc, &matches),
    }
}

/// The order of the tree and the queries that the parser has found.
fn asked_answers<'a>(alloc: Global, matches: &ArgMatches<'a>) -> Result<Order<'a>, WordsFault>
    ensures { IsAnswerFor (rows_of (found_of matches.now)) result }
{
    match found_text(matches, "tree") {
        None => Err(WordsFault::Usage),
        Some(tree) => match values_of(matches, "query") {
            None => Err(WordsFault::Usage),
            Some(words) => match queries_of(alloc, words) {
                Err(fault) => Err(fault),
                Ok(queries) => Ok(Order::Inspect { tree, queries }),
            },
        },
    }
}
