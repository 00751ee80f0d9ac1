//! The words of rows, one beside another.

ghost use Rattle.std.specs.Prelude.{◌≡◌, ◌<◌, ◌*◌, ◌↔◌, ◌^◌, length, replicate, bit_and, bit_or, true};
ghost use Rattle.qm_bits.specs.inner.Words.{ones_of, IsOfBoth, HaveUnseen};

/// How many bits of the words are set.
pub(crate) fn count(words: &[u64]) -> u64
    requires { ones_of (length words.now) words.now < 2 ^ 64 }
    ensures { result ≡ ones_of (length words.now) words.now }
{
    let mut count = 0;
    for word in words {
        count += word.count_ones() as u64;
    }
    count
}

/// Sets the bits that are set in the words of `other`.
pub(crate) fn set_all(words: &mut [u64], other: &[u64])
    requires { length other.now ≡ length words.old }
    ensures { IsOfBoth bit_or words.old other.now words.new }
{
    for i in 0..words.len() {
        words[i] |= other[i];
    }
}

/// Clears the bits that are clear in the words of `other`.
pub(crate) fn keep_all(words: &mut [u64], other: &[u64])
    requires { length other.now ≡ length words.old }
    ensures { IsOfBoth bit_and words.old other.now words.new }
{
    for i in 0..words.len() {
        words[i] &= other[i];
    }
}

/// Clears all bits of the words.
pub(crate) fn clear_all(words: &mut [u64])
    ensures { words.new ≡ replicate (length words.old) 0 }
{
    for word in words.iter_mut() {
        *word = 0;
    }
}

/// Whether some bit is set in the words and clear in those of `seen`.
pub(crate) fn have_new(words: &[u64], seen: &[u64]) -> bool
    requires { length seen.now ≡ length words.now }
    ensures { (result ≡ true) ↔ HaveUnseen words.now seen.now }
{
    for i in 0..words.len() {
        if words[i] & !seen[i] != 0 {
            return true;
        }
    }
    false
}
