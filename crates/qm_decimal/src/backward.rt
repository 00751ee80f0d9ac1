ghost use Rattle.std.specs.Prelude.{◌≡◌, ℕ, ◌+◌, ◌^◌, ◌<◌, ◌≤◌, List, [], ◌∷◌, ◌++◌, length, drop, decimal};
ghost use Rattle.qm_numerals.specs.Printed.{last_digits, shown_sign};

use std::marker::Model;

/// The most bytes that a text may have.
const ROOM: usize = 40;

/// A short text that is written from its end to its start.
#[derive(Drop)]
pub struct Backward {
    bytes: [u8; ROOM],
    start: usize,
}

impl Model for Backward {
    ghost Value = { List ℕ };

    ghost view = { λ text. drop text.start text.bytes };

    ghost invariant = { λ text. text.start ≤ 40 };
}

impl Backward {
    /// An empty text.
    pub fn new() -> Self
        ensures { result ≡ [] }
    {
        Backward {
            bytes: [0; ROOM],
            start: ROOM,
        }
    }

    /// The bytes of the text.
    pub fn as_slice(&self) -> &[u8]
        ensures { result.now ≡ self.now }
    {
        &self.bytes[self.start..]
    }

    /// Puts a byte before the text.
    pub fn put(&mut self, byte: u8)
        requires { length self.old < 40 }
        ensures { self.new ≡ byte ∷ self.old }
    {
        self.start -= 1;
        self.bytes[self.start] = byte;
    }

    /// Puts the last six digits of a number before the text.
    pub fn put_six_digits(&mut self, mut n: u128)
        requires { length self.old ≤ 34 }
        ensures { self.new ≡ last_digits 6 n ++ self.old }
    {
        for _ in 0..6_u8 {
            self.put(b'0' + (n % 10) as u8);
            n /= 10;
        }
    }

    /// Puts a number before the text.
    pub fn put_decimal(&mut self, mut n: u128)
        requires short { length self.old ≤ 9 }
        requires small { n < 10 ^ 31 }
        ensures text { self.new ≡ decimal n ++ self.old }
        ensures len { length self.new ≤ length self.old + 31 }
    {
        while n >= 10 {
            self.put(b'0' + (n % 10) as u8);
            n /= 10;
        }
        self.put(b'0' + n as u8);
    }

    /// Puts a minus sign before the text, where the number is negative and what is shown of it is not 0.
    pub fn put_sign(&mut self, is_negative: bool, shown: u128)
        requires { length self.old < 40 }
        ensures { self.new ≡ shown_sign is_negative shown ++ self.old }
    {
        if is_negative {
            if shown > 0 {
                self.put(b'-');
            }
        }
    }
}
