//! The name of a file, kept without memory.

ghost use Rattle.std.specs.Prelude.{◌≡◌, ◌↔◌, ◌≤◌, length, take, IsTrue, IfSome};

/// The most bytes that the name of a file has that the system opens.
pub const LONGEST_NAME: usize = 4095;

/// A name of at most so many bytes.
#[derive(Drop)]
pub struct FileName {
    bytes: [u8; LONGEST_NAME],
    length: usize,
}

impl FileName {
    /// The name as it is written, unless it is too long.
    pub fn of(name: &str) -> Option<FileName>
        ensures { IfSome result (λ kept. take kept.length kept.bytes ≡ name.now) }
    {
        let name = name.as_bytes();
        if name.len() > LONGEST_NAME {
            return None;
        }
        let mut bytes = [0; LONGEST_NAME];
        bytes[..name.len()].copy_from_slice(name);
        Some(FileName {
            bytes,
            length: name.len(),
        })
    }

    /// Whether this is the name.
    pub fn is(&self, name: &str) -> bool
        ensures { IsTrue result → take self.now.length self.now.bytes ≡ name.now }
    {
        self.bytes.get(..self.length) == Some(name.as_bytes())
    }
}
