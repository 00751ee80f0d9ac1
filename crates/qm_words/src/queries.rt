//! The words of queries.

ghost use Rattle.std.specs.Prelude.{◌≡◌, ◌≢◌, ◌<◌, ◌^◌, ◌++◌, ◌∷◌, ℕ, codes, decimal, IfOk, IfErr, IfSome, IfNone};
ghost use Rattle.qm_commands.specs.QueryWord.{AreQueryWords, IsHullNumber, IsQueryWord, IsShort, hull_name, hull_trace_name};
ghost use Rattle.qm_commands.specs.declared.query.Query.{Query as SeenQuery};
ghost use Rattle.qm_words.specs.SeenWords.{bytes_of_words};
ghost use Rattle.qm_words.specs.inner.QueriesRead.{AreNoQueries};

use crate::numbers::number;
use crate::order::WordsFault;
use crate::places::{at_comma, ends, place};
use qm_commands::{Millionths, Query};
use std::alloc::Global;

/// The number of a leaf, of an entity or of a face is below it, so it has at most 18 digits.
const SHORT_NUMBERS: u64 = 1_000_000_000_000_000_000;

/// The queries of words, one by one.
pub fn queries_of(alloc: Global, words: &[&str]) -> Result<Vec<Query>, WordsFault>
    ensures ok { IfOk result (λ queries. AreQueryWords (bytes_of_words words.now) queries.items) }
    ensures err { IfErr result (λ fault. AreNoQueries (bytes_of_words words.now) fault) }
{
    let mut queries = Vec::new(alloc);
    for word in words {
        match query(word) {
            None => return Err(WordsFault::Usage),
            Some(query) => queries.push(query)?,
        }
    }
    Ok(queries)
}

/// The query of a word.
fn query(word: &str) -> Option<Query>
    ensures some { IfSome result (λ query. IsQueryWord word.now query) }
    ensures none { IfNone result ((query : SeenQuery) → IsQueryWord word.now query → ⊥) }
{
    match word {
        "count" => Some(Query::Count),
        "parts" => Some(Query::Parts),
        "faces" => Some(Query::Faces),
        _ => query_behind(word),
    }
}

/// The query of a word that begins with the name of a query.
fn query_behind(word: &str) -> Option<Query>
    requires no_count { word.now ≢ codes "count" }
    requires no_parts { word.now ≢ codes "parts" }
    requires no_faces { word.now ≢ codes "faces" }
    ensures some { IfSome result (λ query. IsQueryWord word.now query) }
    ensures none { IfNone result ((query : SeenQuery) → IsQueryWord word.now query → ⊥) }
{
    if let Some(text) = word.strip_prefix("at=") {
        return at(text);
    }
    if let Some(text) = word.strip_prefix("hull=1,") {
        return hull(1, text);
    }
    if let Some(text) = word.strip_prefix("hull=2,") {
        return hull(2, text);
    }
    if let Some(text) = word.strip_prefix("trace=") {
        return trace(text);
    }
    if let Some(text) = word.strip_prefix("hulltrace=1,") {
        return hull_trace(1, text);
    }
    if let Some(text) = word.strip_prefix("hulltrace=2,") {
        return hull_trace(2, text);
    }
    if let Some(text) = word.strip_prefix("model=") {
        return model(text);
    }
    if let Some(text) = word.strip_prefix("face=") {
        return face(text);
    }
    if let Some(text) = word.strip_prefix("row=") {
        return row(text);
    }
    match word.strip_prefix("sees=") {
        None => None,
        Some(text) => sees(text),
    }
}

/// The query `at=` with what stands behind it.
fn at(text: &str) -> Option<Query>
    ensures some { IfSome result (λ query. IsQueryWord (codes "at=" ++ text.now) query) }
    ensures none { IfNone result ((query : SeenQuery) → IsQueryWord (codes "at=" ++ text.now) query → ⊥) }
{
    let Millionths { x, y, z } = place(text)?;
    Some(Query::At { x, y, z })
}

/// The query `hull=H,` with what stands behind it.
fn hull(hull: u8, text: &str) -> Option<Query>
    requires { IsHullNumber hull }
    ensures some { IfSome result (λ query. IsQueryWord (hull_name hull ++ text.now) query) }
    ensures none { IfNone result ((query : SeenQuery) → IsQueryWord (hull_name hull ++ text.now) query → ⊥) }
{
    let Millionths { x, y, z } = place(text)?;
    Some(Query::Hull { hull, x, y, z })
}

/// The query `trace=` with what stands behind it.
fn trace(text: &str) -> Option<Query>
    ensures some { IfSome result (λ query. IsQueryWord (codes "trace=" ++ text.now) query) }
    ensures none { IfNone result ((query : SeenQuery) → IsQueryWord (codes "trace=" ++ text.now) query → ⊥) }
{
    let (from, to) = ends(text)?;
    Some(Query::Trace { from, to })
}

/// The query `hulltrace=H,` with what stands behind it.
fn hull_trace(hull: u8, text: &str) -> Option<Query>
    requires { IsHullNumber hull }
    ensures some { IfSome result (λ query. IsQueryWord (hull_trace_name hull ++ text.now) query) }
    ensures none { IfNone result ((query : SeenQuery) → IsQueryWord (hull_trace_name hull ++ text.now) query → ⊥) }
{
    let (from, to) = ends(text)?;
    Some(Query::HullTrace { hull, from, to })
}

/// The query `model=` with what stands behind it.
fn model(text: &str) -> Option<Query>
    ensures some { IfSome result (λ query. IsQueryWord (codes "model=" ++ text.now) query) }
    ensures none { IfNone result ((query : SeenQuery) → IsQueryWord (codes "model=" ++ text.now) query → ⊥) }
{
    let Some((first, numbers)) = at_comma(text) else {
        let whole = short_number(text)?;
        return Some(Query::Model(whole));
    };
    let entity = short_number(first)?;
    let Millionths { x, y, z } = place(numbers)?;
    Some(Query::ModelAt { entity, x, y, z })
}

/// The query `face=` with what stands behind it.
fn face(text: &str) -> Option<Query>
    ensures some { IfSome result (λ query. IsQueryWord (codes "face=" ++ text.now) query) }
    ensures none { IfNone result ((query : SeenQuery) → IsQueryWord (codes "face=" ++ text.now) query → ⊥) }
{
    let number = short_number(text)?;
    Some(Query::Face(number))
}

/// The query `row=` with what stands behind it.
fn row(text: &str) -> Option<Query>
    ensures some { IfSome result (λ query. IsQueryWord (codes "row=" ++ text.now) query) }
    ensures none { IfNone result ((query : SeenQuery) → IsQueryWord (codes "row=" ++ text.now) query → ⊥) }
{
    let leaf = short_number(text)?;
    Some(Query::Row(leaf))
}

/// The query `sees=` with what stands behind it.
fn sees(text: &str) -> Option<Query>
    ensures some { IfSome result (λ query. IsQueryWord (codes "sees=" ++ text.now) query) }
    ensures none { IfNone result ((query : SeenQuery) → IsQueryWord (codes "sees=" ++ text.now) query → ⊥) }
{
    let (first, second) = at_comma(text)?;
    let from = short_number(first)?;
    let to = short_number(second)?;
    Some(Query::Sees(from, to))
}

/// The number of a leaf, of an entity or of a face, with at most 18 digits.
fn short_number(text: &str) -> Option<u64>
    ensures some { IfSome result (λ n. (text.now ≡ decimal n) × IsShort n) }
    ensures none { IfNone result ((n : ℕ) → IsShort n → text.now ≡ decimal n → ⊥) }
{
    let n = number(text)?;
    if n < SHORT_NUMBERS { Some(n) } else { None }
}
