ghost use Rattle.std.specs.Prelude.{◌≡◌, ℕ, ◌-◌, ◌<◌, ◌≤◌, ◌^◌, [], ◌∷◌, Some, None, is_some, IsTrue, IfOk, OnOk, All, length, option_map, take};
ghost use Rattle.qm_tokens.specs.inner.Modes.{between, slash, in_comment, in_word, in_quote};
ghost use Rattle.qm_pieces.specs.inner.Keeping.{KeepsMode, AllKeepMode};
ghost use Rattle.qm_pieces.specs.inner.OpenToken.{mode_of};
ghost use Rattle.qm_pieces.specs.Pushing.{IsByteTaken, IsEndGiven, owned_lexeme};

use crate::owned_token::OwnedToken;
use crate::piece_fault::PieceFault;
use qm_mapfile::Text;
use qm_tokens::TokenKind;
use std::alloc::{AllocError, Global};

/// What is open at the end of a text so far.
#[derive(Clone, Copy)]
pub(crate) enum OpenPart {
    /// No token and no comment.
    Nothing,
    /// A `/` that opens a comment or a word.
    Slash,
    Comment,
    Word,
    Quote,
    /// It is not known, since memory ran out.
    Unknown,
}

/// The token that is open at the end of a text so far.
#[derive(Drop)]
pub(crate) struct OpenToken {
    alloc: Global,
    part: OpenPart,
    /// Its bytes, but a first `/` only once a word is open.
    bytes: Vec<u8>,
    /// The offset of its first byte.
    start: u64,
    /// The line on which it begins.
    line: u64,
}

impl OpenToken {
    /// No token is open.
    pub(crate) fn new(alloc: Global) -> OpenToken
        ensures { mode_of result ≡ Some between }
    {
        OpenToken {
            alloc,
            part: OpenPart::Nothing,
            bytes: Vec::new(alloc),
            start: 0,
            line: 0,
        }
    }

    /// Whether it is known what is open.
    pub(crate) fn is_known(&self) -> bool
        ensures { result ≡ is_some (mode_of self.now) }
    {
        match self.part {
            OpenPart::Unknown => false,
            _ => true,
        }
    }

    /// Whether no token and no comment is open.
    pub(crate) fn is_nothing(&self) -> bool
        ensures { IsTrue result → mode_of self.now ≡ Some between }
    {
        match self.part {
            OpenPart::Nothing => true,
            _ => false,
        }
    }

    /// Leaves what is open, so that nothing is.
    pub(crate) fn leave(&mut self)
        ensures { mode_of self.new ≡ Some between }
    {
        self.part = OpenPart::Nothing;
    }

    /// Forgets what is open.
    pub(crate) fn fail(&mut self)
        ensures { mode_of self.new ≡ None }
    {
        self.part = OpenPart::Unknown;
    }

    /// Takes the byte at an offset, on a line, and answers the token that it ends.
    pub(crate) fn take(
        &mut self,
        byte: u8,
        offset: u64,
        line: u64,
    ) -> Result<Option<OwnedToken>, AllocError>
        requires { offset < 2 ^ 64 - 1 }
        ensures { IfOk result (λ token. IsByteTaken (mode_of self.old) offset line byte token (mode_of self.new)) }
    {
        match self.part {
            OpenPart::Nothing => self.begin(byte, offset, line),
            OpenPart::Slash => self.follow_slash(byte, offset),
            OpenPart::Comment => {
                self.follow_comment(byte);
                Ok(None)
            }
            OpenPart::Word => self.follow_word(byte, offset),
            OpenPart::Quote => self.follow_quote(byte, offset),
            OpenPart::Unknown => Err(AllocError),
        }
    }

    /// How many bytes at the beginning of these neither end a token nor open one, nor end a comment: blanks between tokens, or
    /// bytes of a comment.
    pub(crate) fn kept_by(&self, bytes: &[u8]) -> usize
        ensures within { result ≤ length bytes.now }
        ensures kept { AllKeepMode (mode_of self.now) (take result bytes.now) }
    {
        match self.part {
            OpenPart::Nothing => blanks(bytes),
            OpenPart::Comment => comment_bytes(bytes),
            _ => 0,
        }
    }

    /// What the end of the text at an offset gives.
    pub(crate) fn finish(self, offset: u64) -> Result<Option<OwnedToken>, PieceFault>
        ensures { IsEndGiven (mode_of self) offset result }
    {
        let mut token = self;
        match token.part {
            OpenPart::Nothing | OpenPart::Comment => Ok(None),
            OpenPart::Slash => {
                token.keep_slash()?;
                Ok(token.end(TokenKind::Word, offset)?)
            }
            OpenPart::Word => Ok(token.end(TokenKind::Word, offset)?),
            OpenPart::Quote => Err(PieceFault::UnclosedQuote { line: token.line }),
            OpenPart::Unknown => Err(PieceFault::Memory),
        }
    }

    /// The first byte behind a token or a comment.
    fn begin(&mut self, byte: u8, offset: u64, line: u64) -> Result<Option<OwnedToken>, AllocError>
        requires part { self.old.part ≡ OpenPart.Nothing }
        requires offset { offset < 2 ^ 64 - 1 }
        ensures { IfOk result (λ token. IsByteTaken (Some between) offset line byte token (mode_of self.new)) }
    {
        if byte <= b' ' {
            return Ok(None);
        }
        self.bytes.clear();
        self.line = line;
        if byte == b'"' {
            self.start = offset + 1;
            self.part = OpenPart::Quote;
            return Ok(None);
        }
        self.start = offset;
        if byte == b'/' {
            self.part = OpenPart::Slash;
            return Ok(None);
        }
        self.part = OpenPart::Word;
        self.bytes.push(byte)?;
        Ok(None)
    }

    /// The byte behind a `/` that opens a comment or a word.
    fn follow_slash(&mut self, byte: u8, offset: u64) -> Result<Option<OwnedToken>, AllocError>
        requires { self.old.part ≡ OpenPart.Slash }
        ensures { IfOk result (λ token. (line : ℕ)
            → IsByteTaken (Some (slash self.old.start self.old.line)) offset line byte token (mode_of self.new)) }
    {
        if byte == b'/' {
            self.part = OpenPart::Comment;
            return Ok(None);
        }
        self.keep_slash()?;
        self.follow_word(byte, offset)
    }

    /// Takes a `/` as the first byte of a word.
    fn keep_slash(&mut self) -> Result<(), AllocError>
        ensures word { OnOk result (mode_of self.new ≡ Some (in_word (47 ∷ []) self.old.start self.old.line)) }
        ensures part { OnOk result (self.new.part ≡ OpenPart.Word) }
        ensures bytes { OnOk result (self.new.bytes.items ≡ 47 ∷ []) }
        ensures start { OnOk result (self.new.start ≡ self.old.start) }
        ensures line { OnOk result (self.new.line ≡ self.old.line) }
    {
        self.part = OpenPart::Word;
        self.bytes.clear();
        self.bytes.push(b'/')?;
        Ok(())
    }

    /// A byte of a comment, or behind it.
    fn follow_comment(&mut self, byte: u8)
        requires { self.old.part ≡ OpenPart.Comment }
        ensures { (offset line : ℕ) → IsByteTaken (Some in_comment) offset line byte None (mode_of self.new) }
    {
        if byte == b'\n' {
            self.part = OpenPart::Nothing;
        }
    }

    /// A byte of a word, or behind it.
    fn follow_word(&mut self, byte: u8, offset: u64) -> Result<Option<OwnedToken>, AllocError>
        requires { self.old.part ≡ OpenPart.Word }
        ensures { IfOk result (λ token. (line : ℕ)
            → IsByteTaken (Some (in_word self.old.bytes.items self.old.start self.old.line)) offset line byte token (mode_of self.new)) }
    {
        if byte <= b' ' {
            return self.end(TokenKind::Word, offset);
        }
        self.bytes.push(byte)?;
        Ok(None)
    }

    /// A byte of a quoted token, or its closing quote.
    fn follow_quote(&mut self, byte: u8, offset: u64) -> Result<Option<OwnedToken>, AllocError>
        requires { self.old.part ≡ OpenPart.Quote }
        ensures { IfOk result (λ token. (line : ℕ)
            → IsByteTaken (Some (in_quote self.old.bytes.items self.old.start self.old.line)) offset line byte token (mode_of self.new)) }
    {
        if byte == b'"' {
            return self.end(TokenKind::Quoted, offset);
        }
        self.bytes.push(byte)?;
        Ok(None)
    }

    /// Ends the open token at an offset.
    fn end(&mut self, kind: TokenKind, offset: u64) -> Result<Option<OwnedToken>, AllocError>
        ensures token { IfOk result (λ token. option_map owned_lexeme token ≡ Some (record { kind = kind; bytes = self.old.bytes.items; start = self.old.start; end = offset; line = self.old.line })) }
        ensures mode { OnOk result (mode_of self.new ≡ Some between) }
    {
        let text = Text::from_slice(self.alloc, &self.bytes)?;
        self.part = OpenPart::Nothing;
        Ok(Some(OwnedToken {
            kind,
            text,
            start: self.start,
            end: offset,
            line: self.line,
        }))
    }
}

/// How many blanks stand at the beginning of bytes.
fn blanks(bytes: &[u8]) -> usize
    ensures within { result ≤ length bytes.now }
    ensures kept { All (KeepsMode between) (take result bytes.now) }
{
    for offset in 0..bytes.len() {
        let next = bytes[offset];
        if next > b' ' {
            return offset;
        }
    }
    bytes.len()
}

/// How many bytes stand before the first line end.
fn comment_bytes(bytes: &[u8]) -> usize
    ensures within { result ≤ length bytes.now }
    ensures kept { All (KeepsMode in_comment) (take result bytes.now) }
{
    for offset in 0..bytes.len() {
        let next = bytes[offset];
        if next == b'\n' {
            return offset;
        }
    }
    bytes.len()
}
