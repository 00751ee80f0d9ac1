//! How the fault of a MAP text is printed.

ghost use Rattle.std.specs.Prelude.{◌≡◌, IfOk, string_bytes};
ghost use Rattle.qm_grammar.specs.MapFault.{number_of_fault, line_of_fault};
ghost use Rattle.qm_statement.specs.FaultText.{words_of_fault, fault_text};

use qm_map::MapFault;
use std::alloc::{AllocError, Global};

/// The line that is printed of a fault: its number, the line of the text on which it stands, and what it
/// is.
#[tactic(auto, unfolding(qm_statement::specs::FaultText::fault_text))]
pub fn fault_text(alloc: Global, fault: MapFault) -> Result<String, AllocError>
    ensures { IfOk result (λ text. string_bytes text ≡ fault_text fault) }
{
    let mut text = String::new(alloc);
    let number = number_of_fault(fault);
    let line = line_of_fault(fault);
    let words = words_of_fault(fault);
    writeln!(text, "map fault {number} at line {line}: {words}")?;
    Ok(text)
}

/// The number of a fault, from 1 to 12; 0 for want of memory, which is no fault of a text.
fn number_of_fault(fault: MapFault) -> u8
    ensures { result ≡ number_of_fault fault }
{
    match fault {
        MapFault::TextTooLong { .. } => 1,
        MapFault::UnclosedQuote { .. } => 2,
        MapFault::Unexpected { .. } => 3,
        MapFault::EndInside { .. } => 4,
        MapFault::BadNumber { .. } => 5,
        MapFault::Fraction { .. } => 6,
        MapFault::CoordinateRange { .. } => 7,
        MapFault::NoNormal { .. } => 8,
        MapFault::NoFaces { .. } => 9,
        MapFault::BadOrigin { .. } => 10,
        MapFault::NoEntity { .. } => 11,
        MapFault::PlaneTooFine { .. } => 12,
        MapFault::Memory => 0,
    }
}

/// The line of the text on which a fault stands.
fn line_of_fault(fault: MapFault) -> u64
    ensures { result ≡ line_of_fault fault }
{
    match fault {
        MapFault::TextTooLong { line }
        | MapFault::UnclosedQuote { line }
        | MapFault::Unexpected { line }
        | MapFault::EndInside { line }
        | MapFault::BadNumber { line }
        | MapFault::Fraction { line }
        | MapFault::CoordinateRange { line }
        | MapFault::NoNormal { line }
        | MapFault::NoFaces { line }
        | MapFault::BadOrigin { line }
        | MapFault::NoEntity { line }
        | MapFault::PlaneTooFine { line } => line,
        MapFault::Memory => 0,
    }
}

/// What a fault is, in words.
fn words_of_fault(fault: MapFault) -> &'static str
    ensures { result.now ≡ words_of_fault fault }
{
    match fault {
        MapFault::TextTooLong { .. } => "text too long",
        MapFault::UnclosedQuote { .. } => "quote not closed",
        MapFault::Unexpected { .. } => "unexpected",
        MapFault::EndInside { .. } => "end inside",
        MapFault::BadNumber { .. } => "bad number",
        MapFault::Fraction { .. } => "fraction",
        MapFault::CoordinateRange { .. } => "coordinate out of range",
        MapFault::NoNormal { .. } => "no normal",
        MapFault::NoFaces { .. } => "no faces",
        MapFault::BadOrigin { .. } => "bad origin",
        MapFault::NoEntity { .. } => "no entity",
        MapFault::PlaneTooFine { .. } => "plane too fine",
        MapFault::Memory => "",
    }
}
