ghost use Rattle.std.specs.Prelude.{◌≡◌, ◌≤◌, length};
ghost use Rattle.qm_tokens.specs.Lexeme.{line_ends};
ghost use Rattle.qm_grammar.specs.Faults.{line_at, last_line};

/// How many lines end in the bytes.
fn line_ends(bytes: &[u8]) -> usize
    ensures value { result ≡ line_ends bytes.now }
    ensures within { result ≤ length bytes.now }
{
    bytes.iter().filter(|byte| **byte == b'\n').count()
}

/// The line at the end of a text. Lines count from 1.
pub(crate) fn last_line(text: &[u8]) -> u64
    ensures { result ≡ last_line text.now }
{
    line_ends(text) as u64 + 1
}

/// The line at an offset.
pub(crate) fn line_at(text: &[u8], offset: usize) -> u64
    requires { offset ≤ length text.now }
    ensures { result ≡ line_at text.now offset }
{
    last_line(&text[..offset])
}
