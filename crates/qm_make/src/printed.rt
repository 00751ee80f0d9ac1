//! What is printed of a map that was compiled.

ghost use Rattle.std.specs.Prelude.{◌≡◌, ◌++◌, flat_map, ◌∷◌, IfOk, OnOk, string_bytes, codes, if◌then◌else◌};
ghost use Rattle.std.specs.Fmt.{decimal};
ghost use Rattle.qm_statement.specs.Summary.{summary_text, tree_lines};
ghost use Rattle.qm_statement.specs.Texts.{leak_text};

use crate::count_lines::put_count_line;
use qm_statement::Summary;
use std::alloc::{AllocError, Global};

/// A line of what was found of leaks, and one for each count.
pub fn summary_text(alloc: Global, summary: &Summary) -> Result<String, AllocError>
    ensures { IfOk result (λ text. string_bytes text ≡ summary_text summary.now) }
{
    let mut text = String::new(alloc);
    put_summary(&mut text, summary)?;
    Ok(text)
}

/// Adds these lines.
#[tactic(auto, unfolding(qm_statement::specs::Summary::summary_text))]
fn put_summary(text: &mut String, summary: &Summary) -> Result<(), AllocError>
    ensures { OnOk result (string_bytes text.new ≡ string_bytes text.old ++ summary_text summary.now) }
{
    let verdict = verdict(summary.sealed);
    writeln!(text, "{verdict}")?;
    put_count_line(text, "brushes", summary.brushes)?;
    put_count_line(text, "flat", summary.flat)?;
    put_tree_lines(text, summary)?;
    put_count_line(text, "portals", summary.portals)?;
    put_count_line(text, "seen", summary.seen)
}

/// Adds the lines of what a tree has.
#[tactic(auto, unfolding(qm_statement::specs::Summary::tree_lines))]
fn put_tree_lines(text: &mut String, summary: &Summary) -> Result<(), AllocError>
    ensures { OnOk result (string_bytes text.new ≡ string_bytes text.old ++ tree_lines summary.now) }
{
    put_count_line(text, "planes", summary.planes)?;
    put_count_line(text, "nodes", summary.nodes)?;
    put_count_line(text, "leaves", summary.leaves)?;
    put_count_line(text, "numbered", summary.numbered)?;
    put_count_line(text, "filled", summary.filled)
}

/// What is said where no entity leaks.
fn verdict(sealed: bool) -> &'static str
    ensures { result.now ≡ (if sealed then codes "sealed" else codes "no entity") }
{
    if sealed { "sealed" } else { "no entity" }
}

/// A line of the entity that leaks, and one of the leaves of its trail.
pub fn leak_text(alloc: Global, entity: u64, trail: &[u64]) -> Result<String, AllocError>
    ensures { IfOk result (λ text. string_bytes text ≡ leak_text entity trail.now) }
{
    let mut text = String::new(alloc);
    put_leak(&mut text, entity, trail)?;
    Ok(text)
}

/// Adds these lines.
#[tactic(auto, unfolding(qm_statement::specs::Texts::leak_text))]
fn put_leak(text: &mut String, entity: u64, trail: &[u64]) -> Result<(), AllocError>
    ensures { OnOk result (string_bytes text.new ≡ string_bytes text.old ++ leak_text entity trail.now) }
{
    writeln!(text, "leak: entity {entity}")?;
    write!(text, "trail:")?;
    put_trail(text, trail)?;
    writeln!(text)
}

/// Adds the numbers of leaves, each after a space.
fn put_trail(text: &mut String, trail: &[u64]) -> Result<(), AllocError>
    ensures { OnOk result (string_bytes text.new ≡ string_bytes text.old ++ flat_map (λ leaf. 32 ∷ decimal leaf) trail.now) }
{
    for leaf in trail {
        write!(text, " {leaf}")?;
    }
    Ok(())
}
