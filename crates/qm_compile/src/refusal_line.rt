//! How a refusal is printed.

ghost use Rattle.std.specs.Prelude.{◌≡◌, IfOk, string_bytes};
ghost use Rattle.qm_answers.specs.AnswerText.{words_of_refusal};
ghost use Rattle.qm_statement.specs.RefusalText.{refusal_text};

use qm_answers::QueryFault;
use std::alloc::{AllocError, Global};

/// The line that is printed of a query that is refused: its number, and why.
#[tactic(auto, unfolding(qm_statement::specs::RefusalText::refusal_text))]
pub fn refusal_line(alloc: Global, number: u64, fault: QueryFault) -> Result<String, AllocError>
    ensures { IfOk result (λ text. string_bytes text ≡ refusal_text number fault) }
{
    let mut text = String::new(alloc);
    let words = words_of_refusal(fault);
    writeln!(text, "query {number} refused: {words}")?;
    Ok(text)
}

/// Why a query is refused, in words.
fn words_of_refusal(fault: QueryFault) -> &'static str
    ensures { result.now ≡ words_of_refusal fault }
{
    match fault {
        QueryFault::OutsideCube => "outside the cube",
        QueryFault::NoSuchLeaf => "no such leaf",
        QueryFault::NoRows => "no rows",
        QueryFault::NoPart => "no part",
        QueryFault::BadPart => "bad part",
        QueryFault::NoSuchModel => "no such model",
        QueryFault::NoSuchFace => "no such face",
        QueryFault::TooWide => "plane too wide",
    }
}
