ghost use Rattle.std.specs.Prelude.{◌≡◌, ◌≤◌, [], ◌∷◌, length, not, MatchOption};
ghost use Rattle.std.specs.List.{prefix_len};
ghost use Rattle.qm_grammar.specs.Words.{words_of_text, parts_words};

use std::marker::Model;

/// The words that are left of a text. Contracts see it as the list of those words.
#[derive(Drop)]
pub(crate) struct Words<'a> {
    rest: &'a [u8],
}

impl<'a> Model for Words<'a> {
    ghost use Rattle.std.specs.Prelude.{List};
    ghost use Rattle.qm_grammar.specs.Words.{Word, words_of_text};

    ghost Value = { List Word };

    ghost view = { λ words. words_of_text words.rest.now };
}

impl<'a> Words<'a> {
    /// All the words of a text.
    pub(crate) fn new(text: &'a [u8]) -> Words<'a>
        ensures { result ≡ words_of_text text.now }
    {
        Words { rest: text }
    }

    /// The next word, if there is one.
    pub(crate) fn next(&mut self) -> Option<&'a [u8]>
        ensures { MatchOption result (self.old ≡ []) (λ word. self.old ≡ word.now ∷ self.new) }
    {
        let (_, text) = self.rest.split_at(blanks_len(self.rest));
        let (word, rest) = text.split_at(word_len(text));
        self.rest = rest;
        if word.is_empty() { None } else { Some(word) }
    }
}

/// How many blanks stand in prefix.
fn blanks_len(bytes: &[u8]) -> usize
    ensures value { result ≡ prefix_len parts_words bytes.now }
    ensures within { result ≤ length bytes.now }
{
    bytes.iter().take_while(|byte| **byte <= b' ').count()
}

/// How many bytes stand before the first blank.
fn word_len(bytes: &[u8]) -> usize
    ensures value { result ≡ prefix_len (λ byte. not (parts_words byte)) bytes.now }
    ensures within { result ≤ length bytes.now }
{
    bytes.iter().take_while(|byte| **byte > b' ').count()
}
