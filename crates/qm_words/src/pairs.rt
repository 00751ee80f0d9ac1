//! The words behind verbs that take two.

ghost use Rattle.std.specs.Prelude.{◌∷◌, codes};
ghost use Rattle.qm_words.specs.SeenWords.{bytes_of_words};
ghost use Rattle.qm_words.specs.inner.Answered.{IsOrderFor};
ghost use Rattle.qm_words.specs.inner.TwoWords.{AreNamesOf, IsPairOf};

use crate::found::found_pair;
use crate::lines::pair_matches;
use crate::numbers::{count, number};
use crate::order::{Order, WordsFault};
use crate::spelling::are_plain_words;
use std::alloc::Global;

/// The order of the words behind `format`.
pub fn format_order<'a>(alloc: Global, words: &'a [&'a str]) -> Result<Order<'a>, WordsFault>
    ensures { IsOrderFor (codes "format" ∷ bytes_of_words words.entry.now) result }
{
    match two_names(alloc, "format", words) {
        Err(fault) => Err(fault),
        Ok((map, out)) => Ok(Order::Format { map, out }),
    }
}

/// The order of the words behind `upgrade`.
pub fn upgrade_order<'a>(alloc: Global, words: &'a [&'a str]) -> Result<Order<'a>, WordsFault>
    ensures { IsOrderFor (codes "upgrade" ∷ bytes_of_words words.entry.now) result }
{
    match two_names(alloc, "upgrade", words) {
        Err(fault) => Err(fault),
        Ok((tree, out)) => Ok(Order::Upgrade { tree, out }),
    }
}

/// The order of the words behind `demo`.
pub fn demo_order<'a>(alloc: Global, words: &'a [&'a str]) -> Result<Order<'a>, WordsFault>
    ensures { IsOrderFor (codes "demo" ∷ bytes_of_words words.entry.now) result }
{
    match pair(alloc, "demo", words) {
        Err(fault) => Err(fault),
        Ok((rooms, number_word)) => match count(rooms) {
            None => Err(WordsFault::Usage),
            Some(rooms) => match number(number_word) {
                None => Err(WordsFault::Usage),
                Some(number) => Ok(Order::Demo {
                    rooms: rooms as u32,
                    number,
                }),
            },
        },
    }
}

/// The names of two files behind a verb, which are different.
fn two_names<'a>(
    alloc: Global,
    verb: &'a str,
    words: &'a [&'a str],
) -> Result<(&'a str, &'a str), WordsFault>
    ensures { AreNamesOf (bytes_of_words words.entry.now) result }
{
    match pair(alloc, verb, words) {
        Err(fault) => Err(fault),
        Ok((first, second)) => {
            if first == second {
                Err(WordsFault::Usage)
            } else {
                Ok((first, second))
            }
        }
    }
}

/// The two words behind a verb.
fn pair<'a>(
    alloc: Global,
    verb: &'a str,
    words: &'a [&'a str],
) -> Result<(&'a str, &'a str), WordsFault>
    ensures { IsPairOf (bytes_of_words words.entry.now) result }
{
    if !are_plain_words(words) {
        return Err(WordsFault::Usage);
    }
    match pair_matches(alloc, verb, words) {
        Err(fault) => Err(fault),
        Ok(matches) => found_pair(&matches, "first", "second").ok_or(WordsFault::Usage),
    }
}
