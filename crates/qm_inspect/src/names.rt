//! Words for what a leaf is.

ghost use Rattle.std.specs.Prelude.{◌≡◌, ◌++◌, OnOk, string_bytes};
ghost use Rattle.qm_answers.specs.AnswerText.{name_of_contents, filled_words};

use qm_contents::Contents;
use std::alloc::AllocError;

/// The name of contents.
pub(crate) fn name_of(contents: Contents) -> &'static str
    ensures { result.now ≡ name_of_contents contents }
{
    match contents {
        Contents::Empty => "empty",
        Contents::Solid => "solid",
        Contents::Water => "water",
        Contents::Slime => "slime",
        Contents::Lava => "lava",
        Contents::Sky => "sky",
    }
}

/// Adds that a leaf is filled, where it is.
pub(crate) fn put_filled(text: &mut String, filled: bool) -> Result<(), AllocError>
    ensures { OnOk result (string_bytes text.new ≡ string_bytes text.old ++ filled_words filled) }
{
    if filled {
        text.push_str(" filled")?;
    }
    Ok(())
}
