//! Answers as text.

ghost use Rattle.std.specs.Prelude.{◌≡◌, ◌++◌, ◌∷◌, OnOk, OnErr, string_bytes};
ghost use Rattle.std.specs.Fmt.{decimal};
ghost use Rattle.qm_formats.specs.TreeFile.{IsValidFile};
ghost use Rattle.qm_answers.specs.AnswerText.{number_words, yes_or_no, printed_row, section_kinds, set_places, words_of_count, words_of_place, words_of_hull, words_of_row, words_of_parts, answer_words, answer_line};
ghost use Rattle.qm_answers.specs.Printable.{IsPrintable};
ghost use Rattle.qm_inspect.specs.Parts.{ArePartsOf};

use crate::face_lines::{put_face, put_faces};
use crate::model_lines::{put_model, put_model_at};
use crate::names::{name_of, put_filled};
use crate::parts::Parts;
use crate::row_places::put_set_places;
use crate::trace_lines::{put_hull_trace, put_trace};
use qm_answers::Answer;
use qm_contents::Contents;
use qm_file::{Section, TreeFile};
use std::alloc::{AllocError, Global};

/// Appends the lines of an answer that the file gives: one, and of a trace one for each span. After an error `out` is as it was.
pub fn print(
    alloc: Global,
    file: &TreeFile,
    parts: &Parts,
    answer: &Answer,
    out: &mut Vec<u8>,
) -> Result<(), AllocError>
    requires valid { IsValidFile file.now }
    requires parts { ArePartsOf file.now parts.now }
    requires printable { IsPrintable file.now answer.now }
    ensures ok { OnOk result (out.new.items ≡ out.old.items ++ answer_line file.now answer.now) }
    ensures err { OnErr result (out.new.items ≡ out.old.items) }
{
    let mut line = String::new(alloc);
    put_line(&mut line, file, parts, answer)?;
    out.extend_from_slice(line.as_bytes())
}

/// Adds the lines of an answer. No copy of them is kept.
pub(crate) fn put_line(
    text: &mut String,
    file: &TreeFile,
    parts: &Parts,
    answer: &Answer,
) -> Result<(), AllocError>
    requires valid { IsValidFile file.now }
    requires parts { ArePartsOf file.now parts.now }
    requires printable { IsPrintable file.now answer.now }
    ensures { OnOk result (string_bytes text.new ≡ string_bytes text.old ++ answer_line file.now answer.now) }
{
    put_words(text, file, parts, answer)?;
    text.push('\n')
}

/// Adds the words of an answer.
#[tactic(auto, unfolding(qm_answers::specs::AnswerText::answer_words))]
fn put_words(
    text: &mut String,
    file: &TreeFile,
    parts: &Parts,
    answer: &Answer,
) -> Result<(), AllocError>
    requires valid { IsValidFile file.now }
    requires parts { ArePartsOf file.now parts.now }
    requires printable { IsPrintable file.now answer.now }
    ensures { OnOk result (string_bytes text.new ≡ string_bytes text.old ++ answer_words file.now answer.now) }
{
    match *answer {
        Answer::Count {
            planes,
            nodes,
            leaves,
            numbered,
            rows,
        } => put_counts(text, planes, nodes, leaves, numbered, rows),
        Answer::Place {
            leaf,
            contents,
            filled,
            number,
        } => put_place(text, leaf, contents, filled, number),
        Answer::Hull(solid) => text.push_str(hull_words(solid)),
        Answer::Trace { from, to } => put_trace(text, &file.tree, file.bound, from, to),
        Answer::HullTrace { hull, from, to } => {
            put_hull_trace(text, parts.hull(hull), file.bound, from, to)
        }
        Answer::Model(entity) => put_model(text, &parts.models, entity),
        Answer::ModelAt { entity, contents } => put_model_at(text, entity, contents),
        Answer::Faces(count) => put_faces(text, count),
        Answer::Face(n) => put_face(text, file.tree.all_planes(), file.bound, &parts.faces, n),
        Answer::Row(n) => put_row(text, file, n),
        Answer::Sees(sees) => text.push_str(yes_or_no(sees)),
        Answer::Parts => put_parts(text, file),
    }
}

/// Adds how much there is.
#[tactic(auto, unfolding(qm_answers::specs::AnswerText::words_of_count))]
fn put_counts(
    text: &mut String,
    planes: u64,
    nodes: u64,
    leaves: u64,
    numbered: u64,
    rows: bool,
) -> Result<(), AllocError>
    ensures { OnOk result (string_bytes text.new ≡ string_bytes text.old ++ words_of_count planes nodes leaves numbered rows) }
{
    let rows = yes_or_no(rows);
    write!(
        text,
        "planes {planes} nodes {nodes} leaves {leaves} numbered {numbered} rows {rows}"
    )
}

/// Adds the words of the leaf at a point.
#[tactic(auto, unfolding(qm_answers::specs::AnswerText::words_of_place))]
fn put_place(
    text: &mut String,
    leaf: u64,
    contents: Contents,
    filled: bool,
    number: Option<u64>,
) -> Result<(), AllocError>
    ensures { OnOk result (string_bytes text.new ≡ string_bytes text.old ++ words_of_place leaf contents filled number) }
{
    let name = name_of(contents);
    write!(text, "leaf {leaf} {name}")?;
    put_number(text, number)?;
    put_filled(text, filled)
}

/// Adds the words of the row of a numbered leaf.
#[tactic(auto, unfolding(qm_answers::specs::AnswerText::words_of_row))]
fn put_row(text: &mut String, file: &TreeFile, n: u64) -> Result<(), AllocError>
    ensures { OnOk result (string_bytes text.new ≡ string_bytes text.old ++ words_of_row file.now n) }
{
    write!(text, "row {n}:")?;
    put_places(text, file, n)
}

/// Adds what a file says of itself.
#[tactic(auto, unfolding(qm_answers::specs::AnswerText::words_of_parts))]
fn put_parts(text: &mut String, file: &TreeFile) -> Result<(), AllocError>
    ensures { OnOk result (string_bytes text.new ≡ string_bytes text.old ++ words_of_parts file.now) }
{
    let version = file.version;
    let bound = file.bound;
    write!(text, "version {version} bound {bound} parts")?;
    put_kinds(text, file.sections.as_slice())
}

fn yes_or_no(holds: bool) -> &'static str
    ensures { result.now ≡ yes_or_no holds }
{
    if holds { "yes" } else { "no" }
}

/// The words of what a hull is at a point.
fn hull_words(solid: bool) -> &'static str
    ensures { result.now ≡ words_of_hull solid }
{
    if solid { "hull solid" } else { "hull empty" }
}

/// Adds the number of a leaf, where it has one.
fn put_number(text: &mut String, number: Option<u64>) -> Result<(), AllocError>
    ensures { OnOk result (string_bytes text.new ≡ string_bytes text.old ++ number_words number) }
{
    if let Some(number) = number {
        write!(text, " number {number}")?;
    }
    Ok(())
}

/// Adds the numbers that a row holds, where it is there.
fn put_places(text: &mut String, file: &TreeFile, n: u64) -> Result<(), AllocError>
    ensures { OnOk result (string_bytes text.new ≡ string_bytes text.old ++ set_places 0 (printed_row file.now n)) }
{
    if let Some(rows) = &file.rows {
        if let Some(row) = rows.as_slice().get(n as usize) {
            put_set_places(text, row)?;
        }
    }
    Ok(())
}

/// Adds the kinds of sections, each after a space.
fn put_kinds(text: &mut String, sections: &[Section]) -> Result<(), AllocError>
    ensures { OnOk result (string_bytes text.new ≡ string_bytes text.old ++ section_kinds sections.now) }
{
    for section in sections {
        put_kind(text, section.kind)?;
    }
    Ok(())
}

/// Adds the kind of a section.
fn put_kind(text: &mut String, kind: u32) -> Result<(), AllocError>
    ensures { OnOk result (string_bytes text.new ≡ string_bytes text.old ++ (32 ∷ decimal kind)) }
{
    write!(text, " {kind}")
}
