use qm_mapfile::Text;
use qm_tokens::TokenKind;

/// A token that owns its bytes.
#[derive(Drop)]
pub struct OwnedToken {
    pub kind: TokenKind,
    /// The bytes of the token. The quotes of a quoted token are none of them.
    pub text: Text,
    /// The offset of the token's first byte in the text.
    pub start: u64,
    /// The offset after the token's last byte.
    pub end: u64,
    /// The line on which the token begins, a quoted one with its opening quote. Lines count from 1.
    pub line: u64,
}
