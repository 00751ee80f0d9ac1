//! Places, as they are written.

ghost use Rattle.std.specs.Prelude.{ℕ, ℤ, List, IfSome, IfNone};
ghost use Rattle.qm_commands.specs.QueryWord.{AreEndNumbers, AreMillionths, ArePlaceNumbers};
ghost use Rattle.qm_commands.specs.declared.millionths.Millionths.{Millionths as SeenMillionths};
ghost use Rattle.qm_words.specs.inner.PlacesRead.{IsCommaSplit, IsNumberBefore, IsPlaceBefore};

use qm_commands::Millionths;

/// The ends of a segment that six numbers write, with commas between them.
pub fn ends(text: &str) -> Option<(Millionths, Millionths)>
    ensures some { IfSome result (λ found. AreEndNumbers text.now found.0 found.1) }
    ensures none { IfNone result ((from to : SeenMillionths) → AreEndNumbers text.now from to → ⊥) }
{
    let (from, rest) = place_before(text)?;
    let to = place(rest)?;
    Some((from, to))
}

/// The place that three numbers write, with commas between them.
pub fn place(text: &str) -> Option<Millionths>
    ensures some { IfSome result (λ at. ArePlaceNumbers text.now at.x at.y at.z) }
    ensures none { IfNone result ((x y z : ℤ) → ArePlaceNumbers text.now x y z → ⊥) }
{
    let (x, behind) = number_before(text)?;
    let (y, last) = number_before(behind)?;
    let z = millionths(last)?;
    Some(Millionths { x, y, z })
}

/// The place that the first three numbers of a text write, and what stands behind the comma after them.
fn place_before(text: &str) -> Option<(Millionths, &str)>
    ensures some { IfSome result (λ found. IsPlaceBefore text.now found.0 found.1.now) }
    ensures none { IfNone result ((at : SeenMillionths) (rest : List ℕ) → IsPlaceBefore text.now at rest → ⊥) }
{
    let (x, behind) = number_before(text)?;
    let (y, last) = number_before(behind)?;
    let (z, rest) = number_before(last)?;
    Some((Millionths { x, y, z }, rest))
}

/// The number before the first comma of a text, and what stands behind it.
fn number_before(text: &str) -> Option<(i64, &str)>
    ensures some { IfSome result (λ found. IsNumberBefore text.now found.0 found.1.now) }
    ensures none { IfNone result ((n : ℤ) (rest : List ℕ) → IsNumberBefore text.now n rest → ⊥) }
{
    let (first, rest) = at_comma(text)?;
    let n = millionths(first)?;
    Some((n, rest))
}

/// What stands before the first comma of a text, and behind it.
pub fn at_comma(text: &str) -> Option<(&str, &str)>
    ensures some { IfSome result (λ parts. IsCommaSplit text.now parts.0.now parts.1.now) }
    ensures none { IfNone result ((first rest : List ℕ) → IsCommaSplit text.now first rest → ⊥) }
{
    text.split_once(',')
}

/// A number with at most six decimals, in millionths.
fn millionths(text: &str) -> Option<i64>
    ensures some { IfSome result (λ n. AreMillionths text.now n) }
    ensures none { IfNone result ((n : ℤ) → AreMillionths text.now n → ⊥) }
{
    match qm_decimal::read(text.as_bytes(), 6) {
        Err(_) => None,
        Ok(fraction) => Some(fraction.numerator),
    }
}
