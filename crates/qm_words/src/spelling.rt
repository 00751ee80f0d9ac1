//! What one word may be, whatever stands around it.

ghost use Rattle.std.specs.Prelude.{◌≡◌, ◌∷◌, [], codes, IsTrue, ◌↔◌};
ghost use Rattle.qm_commands.specs.FileNames.{IsFileName};
ghost use Rattle.qm_words.specs.SeenWords.{bytes_of_words};
ghost use Rattle.qm_words.specs.inner.CompileWord.{IsCompileWord, EachIsCompileWord, IsFlag, IsValued, IsValueBehind};
ghost use Rattle.qm_words.specs.inner.PlainWords.{ArePlainWords};

/// Whether each word behind `compile` may stand there.
pub fn are_compile_words(words: &[&str]) -> bool
    ensures { IsTrue result ↔ EachIsCompileWord (bytes_of_words words.now) }
{
    for word in words {
        if !is_compile_word(word) {
            return false;
        }
    }
    true
}

/// Whether no word is empty or begins with a hyphen.
pub fn are_plain_words(words: &[&str]) -> bool
    ensures { IsTrue result ↔ ArePlainWords (bytes_of_words words.now) }
{
    for word in words {
        if !is_file_name(word) {
            return false;
        }
    }
    true
}

/// Whether a word is the name of a file, or an option of `compile` in a form of its own.
fn is_compile_word(word: &str) -> bool
    ensures { IsTrue result ↔ IsCompileWord word.now }
{
    if is_file_name(word) {
        return true;
    }
    if is_flag(word) {
        return true;
    }
    if is_valued(word, "--prt") {
        return true;
    }
    is_valued(word, "--threads")
}

/// Whether a word is an option of `compile` without a value.
fn is_flag(word: &str) -> bool
    ensures { IsTrue result ↔ IsFlag word.now }
{
    match word {
        "--fast" => true,
        "--hulls" => true,
        "--models" => true,
        "--faces" => true,
        _ => false,
    }
}

/// Whether a word can name a file: it is not empty and does not begin with a hyphen.
fn is_file_name(word: &str) -> bool
    ensures { IsTrue result ↔ IsFileName word.now }
{
    match word.as_bytes() {
        [] => false,
        [first, ..] => *first != b'-',
    }
}

/// Whether a word is an option that has a value, with or without it.
fn is_valued(word: &str, option: &str) -> bool
    ensures { IsTrue result ↔ IsValued option.now word.now }
{
    match word.strip_prefix(option) {
        None => false,
        Some(rest) => is_value_behind(rest),
    }
}

/// Whether nothing stands behind an option, or `=` and a value.
fn is_value_behind(rest: &str) -> bool
    ensures { IsTrue result ↔ IsValueBehind rest.now }
{
    match rest.as_bytes() {
        [] => true,
        [b'=', _, ..] => true,
        _ => false,
    }
}
