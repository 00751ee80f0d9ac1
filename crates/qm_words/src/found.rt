//! What the parser has found of words.

ghost use Rattle.std.specs.Prelude.{◌≡◌, MatchOption, option_map};
ghost use Rattle.clap.specs.Matches.{found_of};
ghost use Rattle.clap.specs.Walk.{all_of, first_of, rows_of};
ghost use Rattle.qm_words.specs.SeenWords.{bytes_of_words};
ghost use Rattle.qm_words.specs.inner.TwoWords.{HasPair, LacksPair};

use clap::ArgMatches;

/// The value of an argument.
pub fn found_text<'a>(matches: &ArgMatches<'a>, id: &str) -> Option<&'a str>
    ensures { option_map (λ text. text.now) result ≡ first_of id.now (rows_of (found_of matches.now)) }
{
    matches.get_str(id)
}

/// The values of two arguments, where both have one.
pub fn found_pair<'a>(
    matches: &ArgMatches<'a>,
    first: &str,
    second: &str,
) -> Option<(&'a str, &'a str)>
    ensures { MatchOption result (LacksPair first.now second.now (rows_of (found_of matches.now))) (λ pair. HasPair first.now second.now (rows_of (found_of matches.now)) pair.0.now pair.1.now) }
{
    match found_text(matches, first) {
        None => None,
        Some(one) => match found_text(matches, second) {
            None => None,
            Some(other) => Some((one, other)),
        },
    }
}

/// The values of an argument.
pub fn values_of<'a, 'm>(matches: &'m ArgMatches<'a>, id: &str) -> Option<&'m [&'a str]>
    ensures { option_map (λ words. bytes_of_words words.now) result ≡ all_of id.now (rows_of (found_of matches.now)) }
{
    matches.get_strs(id)
}
