//! The line of a face.

ghost use Rattle.std.specs.Prelude.{◌≡◌, ◌++◌, ◌∷◌, [], flat_map, map, is_some, nat_le, OnOk};
ghost use Rattle.std.specs.List.{list_any};
ghost use Rattle.qm_grammar.specs.Lines.{spaced, spelling, line_text};
ghost use Rattle.qm_grammar.specs.Symbol.{mark_of};
ghost use Rattle.qm_grammar.specs.Valid.{HasWords, IsValidFace};
ghost use Rattle.qm_grammar.specs.Printed.{word_symbol, point_symbols, begins_comment, needs_quotes, texture_symbol, axis_symbols, mapping_prefix, mapping_last, face_line};

use crate::line::{put_last_word, put_number, put_quoted, put_word};
use qm_lists::{Encoding, append_all};
use qm_mapfile::{Face, Mapping, Text};
use std::alloc::AllocError;

/// `( x y z )`
#[tactic(auto, unfolding(qm_grammar::specs::Printed::point_symbols))]
fn put_point(out: &mut Vec<u8>, point: &[i32; 3]) -> Result<(), AllocError>
    ensures { OnOk result (out.new.items ≡ out.old.items ++ flat_map spaced (point_symbols point.now)) }
{
    let [x, y, z] = *point;
    put_word(out, b"(")?;
    put_number(out, x)?;
    put_number(out, y)?;
    put_number(out, z)?;
    put_word(out, b")")
}

/// Whether a texture would not be read as one word.
#[tactic(auto, unfolding(qm_grammar::specs::Printed::needs_quotes))]
fn needs_quotes(name: &[u8]) -> bool
    ensures { result ≡ needs_quotes name.now }
{
    name.is_empty() || has_blank(name) || begins_comment(name) || is_mark(name)
}

/// Whether a text has a byte that parts words.
fn has_blank(name: &[u8]) -> bool
    ensures { result ≡ list_any (λ byte. nat_le byte 32) name.now }
{
    name.iter().any(|byte| *byte <= b' ')
}

/// Whether a text begins with two slashes.
fn begins_comment(name: &[u8]) -> bool
    ensures { result ≡ begins_comment name.now }
{
    match name {
        [first, second, ..] => *first == b'/' && *second == b'/',
        _ => false,
    }
}

/// Whether a word is one of `{ } ( ) [ ]`.
#[tactic(auto, unfolding(qm_grammar::specs::Symbol::mark_of_byte))]
fn is_mark(name: &[u8]) -> bool
    ensures { result ≡ is_some (mark_of name.now) }
{
    match name {
        [mark] => b"{}()[]".contains(mark),
        _ => false,
    }
}

#[tactic(auto, unfolding(qm_grammar::specs::Printed::texture_symbol))]
fn put_texture(out: &mut Vec<u8>, name: &[u8]) -> Result<(), AllocError>
    ensures { OnOk result (out.new.items ≡ out.old.items ++ spaced (texture_symbol name.now)) }
{
    if needs_quotes(name) {
        put_quoted(out, name)
    } else {
        put_word(out, name)
    }
}

/// A word and a space.
struct SpacedWord;

impl Encoding for SpacedWord {
    type Value = Text;

    ghost can_append = { λ _. Unit {0} };

    ghost bytes_of = { λ bytes. spaced (word_symbol bytes) };

    fn append(out: &mut Vec<u8>, bytes: &Text) -> Result<(), AllocError> {
        put_word(out, bytes.as_slice())
    }
}

/// Words, each with a space.
fn put_words(out: &mut Vec<u8>, words: &[Text]) -> Result<(), AllocError>
    ensures { OnOk result (out.new.items ≡ out.old.items ++ flat_map spaced (map word_symbol words.now)) }
{
    append_all::<SpacedWord>(out, words)
}

/// `[ a b c d ]`
fn put_axis(out: &mut Vec<u8>, words: &[Text]) -> Result<(), AllocError>
    ensures { OnOk result (out.new.items ≡ out.old.items ++ flat_map spaced (axis_symbols words.now)) }
{
    put_word(out, b"[")?;
    put_words(out, words)?;
    put_word(out, b"]")
}

/// The mapping, which ends the line.
#[tactic(auto, unfolding(qm_grammar::specs::Printed::mapping_prefix, qm_grammar::specs::Printed::mapping_last))]
fn put_mapping(out: &mut Vec<u8>, mapping: &Mapping) -> Result<(), AllocError>
    requires { HasWords mapping.now }
    ensures { OnOk result (out.new.items ≡ out.old.items ++ (flat_map spaced (mapping_prefix mapping.now) ++ (spelling (mapping_last mapping.now) ++ 10 ∷ []))) }
{
    match mapping {
        Mapping::Standard(words) => {
            let words = words.as_slice();
            put_words(out, &words[..4])?;
            put_last_word(out, words[4].as_slice())
        }
        Mapping::Valve(words) => {
            let words = words.as_slice();
            put_axis(out, &words[..4])?;
            put_axis(out, &words[4..8])?;
            put_words(out, &words[8..10])?;
            put_last_word(out, words[10].as_slice())
        }
    }
}

/// Three points, the texture and the mapping.
pub(crate) struct FaceLine;

impl Encoding for FaceLine {
    type Value = Face;

    ghost can_append = { IsValidFace };

    ghost bytes_of = { λ face. line_text (face_line face) };

    #[tactic(auto, unfolding(qm_grammar::specs::Printed::face_line, qm_grammar::specs::Lines::line_text))]
    fn append(out: &mut Vec<u8>, face: &Face) -> Result<(), AllocError> {
        let [first, second, third] = &face.points;
        put_point(out, first)?;
        put_point(out, second)?;
        put_point(out, third)?;
        put_texture(out, face.texture.as_slice())?;
        put_mapping(out, &face.mapping)
    }
}
