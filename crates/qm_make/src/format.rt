//! From a map to its canonical text.

ghost use Rattle.std.specs.Prelude.{◌≡◌, ◌<◌, ◌^◌, ◌++◌, length, IfOk, codes, string_bytes};
ghost use Rattle.qm_grammar.specs.Valid.{IsValidMap};
ghost use Rattle.qm_statement.specs.Output.{IsFormatOutput};
ghost use Rattle.qm_statement.specs.Summary.{brush_count, format_summary};
ghost use Rattle.qm_make.specs.inner.Made.{output_of};

use crate::count_lines::put_count_line;
use crate::made::Product;
use crate::outcome::Outcome;
use qm_mapfile::MapFile;
use qm_mapout::print;
use std::alloc::{AllocError, Global};

/// The canonical text of a map, with the number of its entities and of their brushes.
pub fn format(alloc: Global, map: &MapFile) -> Result<Product, AllocError>
    requires { IsValidMap map.now }
    ensures { IfOk result (λ product. IsFormatOutput map.now (output_of product)) }
{
    let summary = summary(alloc, map)?;
    let mut file = Vec::new(alloc);
    print(alloc, map, &mut file)?;
    Ok(Product {
        file,
        listing: None,
        outcome: Outcome::Done(summary),
    })
}

/// A line for each count.
#[tactic(auto, unfolding(qm_statement::specs::Summary::format_summary))]
fn summary(alloc: Global, map: &MapFile) -> Result<String, AllocError>
    requires { brush_count map.now < 2 ^ 64 }
    ensures { IfOk result (λ text. string_bytes text ≡ format_summary map.now) }
{
    let mut text = String::new(alloc);
    put_count_line(&mut text, "entities", map.entities.len() as u64)?;
    put_count_line(&mut text, "brushes", brush_count(map))?;
    Ok(text)
}

/// How many brushes all entities have.
fn brush_count(map: &MapFile) -> u64
    requires { brush_count map.now < 2 ^ 64 }
    ensures { result ≡ brush_count map.now }
{
    let mut count = 0;
    for entity in map.entities.as_slice() {
        count += entity.brushes.len() as u64;
    }
    count
}
