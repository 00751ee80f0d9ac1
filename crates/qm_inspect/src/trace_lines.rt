//! Traces as text.

ghost use Rattle.std.specs.Prelude.{◌≡◌, ◌≤◌, ◌<◌, ◌++◌, ◌∷◌, OnOk, string_bytes};
ghost use Rattle.qm_space.specs.Bounds.{world_extent};
ghost use Rattle.qm_partition.specs.Counting.{leaf_count};
ghost use Rattle.qm_spans.specs.Spans.{AreLeavesThere};
ghost use Rattle.qm_answers.specs.AnswerText.{words_of_span, span_words, words_of_spans, words_of_later_spans, words_of_trace, words_of_hull_trace};
ghost use Rattle.qm_answers.specs.Printable.{IsKnownTo, IsTraceable};

use crate::names::{name_of, put_filled};
use crate::places::point_of;
use qm_answers::DecodedSection;
use qm_commands::Millionths;
use qm_file::TreeFile;
use qm_partition::Leaf;
use qm_trace::{Span, Tracer};
use qm_tree::Tree;
use std::alloc::AllocError;

/// Adds the words of the trace of a segment.
pub(crate) fn put_trace(
    text: &mut String,
    tree: &Tree,
    bound: u32,
    from: Millionths,
    to: Millionths,
) -> Result<(), AllocError>
    requires bound { bound ≤ world_extent }
    requires traceable { IsTraceable bound tree.now from to }
    ensures { OnOk result (string_bytes text.new ≡ string_bytes text.old ++ words_of_trace tree.now from to) }
{
    match Tracer::over(tree, bound, point_of(from), point_of(to)) {
        Ok(mut tracer) => put_spans(text, tree, &mut tracer),
        Err(_) => unreachable!(),
    }
}

/// Adds the words of the trace of a segment through a hull.
pub(crate) fn put_hull_trace(
    text: &mut String,
    hull: &DecodedSection<TreeFile>,
    bound: u32,
    from: Millionths,
    to: Millionths,
) -> Result<(), AllocError>
    requires bound { bound ≤ world_extent }
    requires traceable { IsKnownTo hull.now (λ found. IsTraceable bound found.tree from to) }
    ensures { OnOk result (string_bytes text.new ≡ string_bytes text.old ++ words_of_hull_trace hull.now from to) }
{
    match hull {
        DecodedSection::Known(hull) => put_trace(text, &hull.tree, bound, from, to),
        _ => unreachable!(),
    }
}

/// Adds the words of all spans that are still to come, each on a line of its own.
#[tactic(auto, unfolding(qm_answers::specs::AnswerText::words_of_spans))]
fn put_spans(text: &mut String, tree: &Tree, tracer: &mut Tracer) -> Result<(), AllocError>
    requires { AreLeavesThere (leaf_count tree.now.shape) tracer.old }
    ensures { OnOk result (string_bytes text.new ≡ string_bytes text.old ++ words_of_spans tree.now tracer.old) }
{
    if let Some(span) = tracer.next() {
        put_span(text, tree, &span)?;
        put_later_spans(text, tree, tracer)?;
    }
    Ok(())
}

/// Adds the words of all spans that are still to come, each behind a line break.
fn put_later_spans(text: &mut String, tree: &Tree, tracer: &mut Tracer) -> Result<(), AllocError>
    requires { AreLeavesThere (leaf_count tree.now.shape) tracer.old }
    ensures { OnOk result (string_bytes text.new ≡ string_bytes text.old ++ words_of_later_spans tree.now tracer.old) }
{
    while let Some(span) = tracer.next() {
        put_later_span(text, tree, &span)?;
    }
    Ok(())
}

/// Adds the words of a span behind a line break.
fn put_later_span(text: &mut String, tree: &Tree, span: &Span) -> Result<(), AllocError>
    requires { span.now.leaf < leaf_count tree.now.shape }
    ensures { OnOk result (string_bytes text.new ≡ string_bytes text.old ++ (10 ∷ span_words tree.now span.now)) }
{
    text.push('\n')?;
    put_span(text, tree, span)
}

/// Adds the words of a span.
fn put_span(text: &mut String, tree: &Tree, span: &Span) -> Result<(), AllocError>
    requires { span.now.leaf < leaf_count tree.now.shape }
    ensures { OnOk result (string_bytes text.new ≡ string_bytes text.old ++ span_words tree.now span.now) }
{
    let found = tree.leaf(span.leaf);
    put_span_of(text, &found, span)
}

/// Adds the words of a span of a leaf.
#[tactic(auto, unfolding(qm_answers::specs::AnswerText::words_of_span))]
fn put_span_of(text: &mut String, found: &Leaf, span: &Span) -> Result<(), AllocError>
    ensures { OnOk result (string_bytes text.new ≡ string_bytes text.old ++ words_of_span found.now span.now) }
{
    let leaf = span.leaf;
    let name = name_of(found.contents);
    write!(text, "leaf {leaf} {name}")?;
    put_filled(text, found.filled)?;
    let (over, under) = span.to;
    write!(text, " to {over}/{under}")
}
