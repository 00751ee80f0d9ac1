//! The set places of rows, as text.

ghost use Rattle.std.specs.Prelude.{◌≡◌, ◌≤◌, ◌<◌, ◌+◌, ◌*◌, ◌^◌, ◌++◌, ◌∷◌, [], length, OnOk, string_bytes, if◌then◌else◌};
ghost use Rattle.std.specs.Fmt.{decimal};
ghost use Rattle.qm_lists.specs.Word.{has_bit};
ghost use Rattle.qm_answers.specs.AnswerText.{set_places};
ghost use Rattle.qm_inspect.specs.inner.RunWords.{run_words};

use itoa::Buffer;
use qm_bits::BitRow;
use std::alloc::AllocError;

/// Adds the numbers of the places that are set, each after a space.
pub(crate) fn put_set_places(text: &mut String, row: &BitRow) -> Result<(), AllocError>
    ensures { OnOk result (string_bytes text.new ≡ string_bytes text.old ++ set_places 0 row.now) }
{
    for k in 0..row.len().div_ceil(64) {
        put_word(text, row, k)?;
    }
    Ok(())
}

/// Adds those of the 64 places that are the bits of a word.
fn put_word(text: &mut String, row: &BitRow, k: u64) -> Result<(), AllocError>
    requires within { 64 * k < length row.now }
    requires few { 64 * k + 64 ≤ 2 ^ 64 }
    ensures { OnOk result (string_bytes text.new ≡ string_bytes text.old ++ run_words row.now (64 * k) 64) }
{
    let word = row.word(k);
    if word == 0 {
        return Ok(());
    }
    for bit in 0..64 {
        put_bit(text, has_bit(word, bit), 64 * k + bit)?;
    }
    Ok(())
}

/// Whether a bit of a word is set.
fn has_bit(word: u64, bit: u64) -> bool
    requires { bit < 64 }
    ensures { result ≡ has_bit word bit }
{
    (word >> bit) & 1 == 1
}

/// Adds the number of a place where it is set.
fn put_bit(text: &mut String, set: bool, place: u64) -> Result<(), AllocError>
    ensures { OnOk result (string_bytes text.new ≡ string_bytes text.old ++ (if set then 32 ∷ decimal place else [])) }
{
    if set {
        let mut digits = Buffer::new();
        text.push(' ')?;
        text.push_str(digits.format(place))?;
    }
    Ok(())
}
