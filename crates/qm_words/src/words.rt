//! The words of a command.

ghost use Rattle.std.specs.Prelude.{◌≡◌, ◌∷◌, Err, IfOk};
ghost use Rattle.qm_commands.specs.Order.{Order as OrderRecord};
ghost use Rattle.qm_commands.specs.Words.{AreNoCommand, AreWordsOf};
ghost use Rattle.qm_words.specs.SeenWords.{bytes_of_words, order_of};
ghost use Rattle.qm_words.specs.declared.order.WordsFault.TheVariants.{Usage};
ghost use Rattle.qm_words.specs.inner.Answered.{IsOrderFor};

use crate::compile::compile_order;
use crate::inspect::inspect_order;
use crate::order::{Order, WordsFault};
use crate::pairs::{demo_order, format_order, upgrade_order};
use std::alloc::Global;

/// What words ask for. They are `compile MAP OUT`, among whose names `--prt FILE` or `--prt=FILE`, `--threads N` or
/// `--threads=N`, `--fast`, `--hulls`, `--models` and `--faces` may stand, each once at most; `inspect TREE QUERY..`;
/// `format MAP OUT`; `demo N NUMBER`; or `upgrade TREE OUT`.
///
/// # Errors
///
/// `Usage` exactly where the words are no command, but that `Memory` may come for any words.
pub fn read<'a>(alloc: Global, words: &'a [&'a str]) -> Result<Order<'a>, WordsFault>
    ensures order { IfOk result (λ order. AreWordsOf (order_of order) (bytes_of_words words.entry.now)) }

    // No other order has these words.
    ensures only { IfOk result (λ order. (other : OrderRecord) → AreWordsOf other (bytes_of_words words.entry.now) → other ≡ order_of order) }
    ensures usage { result ≡ Err Usage → AreNoCommand (bytes_of_words words.entry.now) }
{
    match words {
        [] => Err(WordsFault::Usage),
        [verb, rest @ ..] => order_behind(alloc, verb, rest),
    }
}

/// The order of the words behind a verb.
fn order_behind<'a>(
    alloc: Global,
    verb: &str,
    words: &'a [&'a str],
) -> Result<Order<'a>, WordsFault>
    ensures { IsOrderFor (verb.now ∷ bytes_of_words words.entry.now) result }
{
    match verb {
        "compile" => compile_order(alloc, words),
        "inspect" => inspect_order(alloc, words),
        "format" => format_order(alloc, words),
        "demo" => demo_order(alloc, words),
        "upgrade" => upgrade_order(alloc, words),
        _ => Err(WordsFault::Usage),
    }
}
