//! The laws of texts so far, for any text. Each function does nothing: its clause is the law.

ghost use Rattle.std.specs.Prelude.{◌≡◌, ◌↔◌, ◌+◌, ◌<◌, ◌≤◌, ℕ, List, Contains, length};
ghost use Rattle.qm_tokens.specs.Lexeme.{Lexeme};
ghost use Rattle.qm_tokens.specs.Lexing.{Lexing, lexeme_then};
ghost use Rattle.qm_tokens.specs.inner.Modes.{between};
ghost use Rattle.qm_grammar.specs.declared.refusal.Refusal.{Refusal};
ghost use Rattle.qm_grammar.specs.declared.fault.MapFault.{MapFault};
ghost use Rattle.qm_grammar.specs.Faults.{text_limit, end_of, fault_of, IsRefused};
ghost use Rattle.qm_grammar.specs.Meaning.{IsFaultText};
ghost use Rattle.qm_pieces.specs.LexingState.{LexingState, state_between, read_on};
ghost use Rattle.qm_pieces.specs.Shifted.{shifted_lexing};
ghost use Rattle.qm_pieces.specs.FirstToken.{EndsIn};
ghost use Rattle.qm_pieces.specs.TextSoFar.{IsLexedTo, IsEndedToken};
ghost use Rattle.qm_pieces.specs.Certain.{IsCertain};

/// Each text so far has ended some tokens, and its lexing stands in some state.
pub fn each_text_so_far()
    ensures { (text : List ℕ) → (ended : List Lexeme) × (state : LexingState) × IsLexedTo text ended state }
{}

/// The tokens that a text so far has ended are those that the text has whatever follows, and no other.
pub fn ended_tokens()
    ensures { (text : List ℕ) (ended : List Lexeme) (state : LexingState) → IsLexedTo text ended state
        → (token : Lexeme) → Contains ended token ↔ IsEndedToken text token }
{}

/// What bytes give does not depend on where they begin, but for the offsets and lines of the tokens.
pub fn shifted_bytes()
    ensures { (further lines offset line : ℕ) (bytes : List ℕ)
        → read_on (state_between (further + offset) (lines + line)) bytes
        ≡ shifted_lexing further lines (read_on (state_between offset line) bytes) }
{}

/// A token that ends before the bytes do is ended there, whatever follows.
pub fn first_token()
    ensures { (offset line : ℕ) (bytes : List ℕ) (token : Lexeme) (rest : Lexing)
        → read_on (state_between offset line) bytes ≡ lexeme_then token rest
        → token.end < offset + length bytes
        → EndsIn between offset line bytes token }
{}

/// The fault of a token that has ended within the limit, and is refused, is certain.
pub fn refused_token()
    ensures { (text : List ℕ) (ended : List Lexeme) (state : LexingState) → IsLexedTo text ended state
        → (token : Lexeme) (reason : Refusal) → IsRefused ended token reason → end_of token ≤ text_limit
        → IsCertain text (fault_of reason token.line) }
{}

/// What a text means that is longer than its limit is certain.
pub fn long_text()
    ensures { (text : List ℕ) → text_limit < length text → (fault : MapFault) → IsFaultText text fault → IsCertain text fault }
{}

/// No other fault is certain: none of a text within the limit of which no token that has ended is refused.
pub fn no_other_fault()
    ensures { (text : List ℕ) (ended : List Lexeme) (state : LexingState) → IsLexedTo text ended state
        → length text ≤ text_limit → ((token : Lexeme) (reason : Refusal) → IsRefused ended token reason → ⊥)
        → (fault : MapFault) → IsCertain text fault → ⊥ }
{}
