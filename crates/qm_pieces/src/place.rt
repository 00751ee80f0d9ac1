ghost use Rattle.std.specs.Prelude.{◌≡◌, ◌+◌, ◌<◌, ◌≤◌, ◌^◌, length};
ghost use Rattle.qm_tokens.specs.Lexeme.{line_ends};

/// A place in a text.
#[derive(Clone, Copy)]
pub(crate) struct Place {
    /// How many bytes stand before it.
    pub(crate) offset: u64,
    /// How many of them end a line.
    pub(crate) line_ends: u64,
}

impl Place {
    /// The place behind bytes that follow.
    pub(crate) fn behind(self, bytes: &[u8]) -> Place
        requires fits { self.offset + length bytes.now < 2 ^ 64 }
        requires few { self.line_ends ≤ self.offset }
        ensures offset { result.offset ≡ self.offset + length bytes.now }
        ensures line_ends { result.line_ends ≡ self.line_ends + line_ends bytes.now }
        ensures few { result.line_ends ≤ result.offset }
    {
        Place {
            offset: self.offset + bytes.len() as u64,
            line_ends: self.line_ends + line_ends(bytes) as u64,
        }
    }
}

/// How many bytes a run has at most, so that the count of its line ends fits in a byte.
const RUN: usize = 240;

/// How many lines end in the bytes.
fn line_ends(bytes: &[u8]) -> usize
    ensures value { result ≡ line_ends bytes.now }
    ensures within { result ≤ length bytes.now }
{
    let mut count = 0;
    let mut counted = 0;
    while counted < bytes.len() {
        let end = bytes.len().min(counted + RUN);
        count += line_ends_of_run(&bytes[counted..end]) as usize;
        counted = end;
    }
    count
}

/// How many lines end in a run. The count is a byte, so that many bytes are looked at at once.
fn line_ends_of_run(run: &[u8]) -> u8
    requires { length run.now ≤ 240 }
    ensures { result ≡ line_ends run.now }
{
    let mut count = 0;
    for byte in run {
        if *byte == b'\n' {
            count += 1;
        }
    }
    count
}
