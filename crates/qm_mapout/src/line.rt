//! Tokens of a line, one after another.

ghost use Rattle.std.specs.Prelude.{◌≡◌, ◌+◌, ◌%◌, ◌∷◌, ◌++◌, [], OnOk};
ghost use Rattle.qm_numerals.specs.Printed.{decimals_of_thousandths, with_point, thousandths_text, signed_thousandths};
ghost use Rattle.qm_grammar.specs.Lines.{spaced, spelling, line_text};
ghost use Rattle.qm_grammar.specs.Printed.{word_symbol, quoted, number_symbol, brace_line, open_brace, close_brace};

use itoa::Buffer;
use std::alloc::AllocError;

/// A word and a space.
pub(crate) fn put_word(out: &mut Vec<u8>, bytes: &[u8]) -> Result<(), AllocError>
    ensures { OnOk result (out.new.items ≡ out.old.items ++ spaced (word_symbol bytes.now)) }
{
    out.extend_from_slice(bytes)?;
    out.push(b' ')?;
    Ok(())
}

/// The last word of a line.
pub(crate) fn put_last_word(out: &mut Vec<u8>, bytes: &[u8]) -> Result<(), AllocError>
    ensures { OnOk result (out.new.items ≡ out.old.items ++ (spelling (word_symbol bytes.now) ++ 10 ∷ [])) }
{
    out.extend_from_slice(bytes)?;
    out.push(b'\n')?;
    Ok(())
}

/// A text between quotes.
fn put_quotes(out: &mut Vec<u8>, bytes: &[u8]) -> Result<(), AllocError>
    ensures { OnOk result (out.new.items ≡ out.old.items ++ spelling (quoted bytes.now)) }
{
    out.push(b'"')?;
    out.extend_from_slice(bytes)?;
    out.push(b'"')?;
    Ok(())
}

/// A text between quotes, and a space.
pub(crate) fn put_quoted(out: &mut Vec<u8>, bytes: &[u8]) -> Result<(), AllocError>
    ensures { OnOk result (out.new.items ≡ out.old.items ++ spaced (quoted bytes.now)) }
{
    put_quotes(out, bytes)?;
    out.push(b' ')?;
    Ok(())
}

/// The last text of a line, between quotes.
pub(crate) fn put_last_quoted(out: &mut Vec<u8>, bytes: &[u8]) -> Result<(), AllocError>
    ensures { OnOk result (out.new.items ≡ out.old.items ++ (spelling (quoted bytes.now) ++ 10 ∷ [])) }
{
    put_quotes(out, bytes)?;
    out.push(b'\n')?;
    Ok(())
}

/// A coordinate, which is kept in thousandths, and a space.
pub(crate) fn put_number(out: &mut Vec<u8>, coordinate: i32) -> Result<(), AllocError>
    ensures { OnOk result (out.new.items ≡ out.old.items ++ spaced (number_symbol coordinate)) }
{
    put_coordinate(out, coordinate)?;
    out.push(b' ')?;
    Ok(())
}

/// A coordinate: `-` where it is below 0, its whole part, and where it is not whole a point and decimals.
fn put_coordinate(out: &mut Vec<u8>, coordinate: i32) -> Result<(), AllocError>
    ensures { OnOk result (out.new.items ≡ out.old.items ++ signed_thousandths coordinate) }
{
    if coordinate < 0 {
        out.push(b'-')?;
    }
    put_thousandths(out, coordinate.unsigned_abs())
}

/// So many thousandths.
#[tactic(auto, unfolding(qm_numerals::specs::Printed::thousandths_text))]
fn put_thousandths(out: &mut Vec<u8>, number: u32) -> Result<(), AllocError>
    ensures { OnOk result (out.new.items ≡ out.old.items ++ thousandths_text number) }
{
    let mut buffer = Buffer::new();
    out.extend_from_slice(buffer.format(number / 1_000).as_bytes())?;
    put_decimals(out, number % 1_000)
}

/// A point and the decimals of less than a thousand thousandths, without zeros at their end; nothing where there are
/// none.
fn put_decimals(out: &mut Vec<u8>, number: u32) -> Result<(), AllocError>
    ensures { OnOk result (out.new.items ≡ out.old.items ++ with_point (decimals_of_thousandths number)) }
{
    let tens = number / 10;
    let hundreds = tens / 10;
    if number == 0 {
        Ok(())
    } else if number % 100 == 0 {
        out.extend_from_slice(&[b'.', digit(number / 100)])
    } else if number % 10 == 0 {
        out.extend_from_slice(&[b'.', digit(hundreds), digit(tens)])
    } else {
        out.extend_from_slice(&[b'.', digit(hundreds), digit(tens), digit(number)])
    }
}

/// The last digit of a number.
fn digit(number: u32) -> u8
    ensures { result ≡ 48 + number % 10 }
{
    b'0' + (number % 10) as u8
}

/// A line of `{`.
#[tactic(auto, unfolding(qm_grammar::specs::Lines::line_text))]
pub(crate) fn put_open_brace(out: &mut Vec<u8>) -> Result<(), AllocError>
    ensures { OnOk result (out.new.items ≡ out.old.items ++ line_text (brace_line open_brace)) }
{
    out.extend_from_slice(b"{\n")
}

/// A line of `}`.
#[tactic(auto, unfolding(qm_grammar::specs::Lines::line_text))]
pub(crate) fn put_close_brace(out: &mut Vec<u8>) -> Result<(), AllocError>
    ensures { OnOk result (out.new.items ≡ out.old.items ++ line_text (brace_line close_brace)) }
{
    out.extend_from_slice(b"}\n")
}
