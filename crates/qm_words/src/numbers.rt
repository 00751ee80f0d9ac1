//! Numbers without a sign or a leading zero.

ghost use Rattle.std.specs.Prelude.{◌≡◌, ◌≤◌, ◌<◌, ◌^◌, ℕ, IfSome, IfNone, decimal};
ghost use Rattle.qm_words.specs.inner.Numbers.{IsCount};

use itoa::Buffer;

/// The greatest count.
const GREATEST_COUNT: u64 = 64;

/// The number that a text writes.
pub fn number(text: &str) -> Option<u64>
    ensures some { IfSome result (λ n. (text.now ≡ decimal n) × (n < 2 ^ 64)) }
    ensures none { IfNone result ((n : ℕ) → n < 2 ^ 64 → text.now ≡ decimal n → ⊥) }
{
    match text.parse::<u64>() {
        Ok(n) => {
            if Buffer::new().format(n) == text {
                Some(n)
            } else {
                None
            }
        }
        Err(_) => None,
    }
}

/// The number from 1 to 64 that a text writes.
pub fn count(text: &str) -> Option<u8>
    ensures some { IfSome result (λ n. IsCount text.now n) }
    ensures none { IfNone result ((n : ℕ) → IsCount text.now n → ⊥) }
{
    match number(text) {
        None => None,
        Some(n) => {
            if 1 <= n && n <= GREATEST_COUNT {
                Some(n as u8)
            } else {
                None
            }
        }
    }
}
