//! The command lines of the verbs, and their parser.

ghost use Rattle.std.specs.Prelude.{◌≡◌, ◌≢◌, false, true, IfOk};
ghost use Rattle.clap.specs.Simple.{App, app_of, with_rule};
ghost use Rattle.clap.specs.Walk.{rule_of};
ghost use Rattle.clap.specs.Faults.{is_simple_and_free};
ghost use Rattle.clap.specs.declared.error.kind.ErrorKind.TheVariants.{OutOfMemory};
ghost use Rattle.qm_words.specs.declared.order.WordsFault.TheVariants.{Usage};
ghost use Rattle.qm_words.specs.SeenWords.{bytes_of_words};
ghost use Rattle.qm_words.specs.inner.CommandLines.{IsCommandLine, compile_app, inspect_app, named_app, names_app, pair_app, plain_app, rule_for};
ghost use Rattle.qm_words.specs.inner.Parsed.{IsParsedBy};

use crate::order::WordsFault;
use clap::error::ErrorKind;
use clap::{Arg, ArgAction, ArgMatches, Command};
use std::alloc::{AllocError, Global};

/// How an argument of a command stands among its words.
#[derive(Clone, Copy)]
enum ArgKind {
    /// By its place, and it has to be there.
    Name,
    /// By its place, as often as one likes, and once at least.
    Many,
    /// As an option with a value, which is written like its id.
    Value,
    /// As an option without a value.
    Flag,
}

/// An argument.
fn arg_of<'a>(alloc: Global, kind: ArgKind, id: &'a str) -> Arg<'a>
    ensures rule { rule_of result ≡ rule_for kind id.entry.now }
    ensures own { result.global ≡ false }
{
    let arg = Arg::new(alloc, id);
    match kind {
        ArgKind::Name => arg.required(true),
        ArgKind::Many => arg.required(true).action(ArgAction::Append),
        ArgKind::Value => arg.long(id),
        ArgKind::Flag => arg.long(id).action(ArgAction::SetTrue),
    }
}

/// A command with one more argument, where there was memory for the command.
fn with_arg<'a>(
    alloc: Global,
    command: Result<Command<'a>, AllocError>,
    kind: ArgKind,
    id: &'a str,
) -> Result<Command<'a>, AllocError>
    ensures { (app : App) → IsCommandLine app command.entry → IsCommandLine (with_rule app (rule_for kind id.entry.now)) result }
{
    match command {
        Ok(command) => command.arg(arg_of(alloc, kind, id)),
        Err(fault) => Err(fault),
    }
}

/// A command whose words begin behind its verb, and which has no option of its own accord.
fn plain_command<'a>(alloc: Global, verb: &'a str) -> Command<'a>
    ensures { app_of result ≡ plain_app verb.entry.now }
{
    Command::new(alloc, verb)
        .no_binary_name(true)
        .disable_help_flag(true)
}

/// A verb with the first of its words.
fn named_command<'a>(
    alloc: Global,
    verb: &'a str,
    first: &'a str,
) -> Result<Command<'a>, AllocError>
    ensures { IsCommandLine (named_app verb.entry.now first.entry.now) result }
{
    plain_command(alloc, verb).arg(arg_of(alloc, ArgKind::Name, first))
}

/// A verb with two words.
fn names_command<'a>(
    alloc: Global,
    verb: &'a str,
    first: &'a str,
    second: &'a str,
) -> Result<Command<'a>, AllocError>
    ensures { IsCommandLine (names_app verb.entry.now first.entry.now second.entry.now) result }
{
    let named = named_command(alloc, verb, first);
    with_arg(alloc, named, ArgKind::Name, second)
}

/// `compile MAP OUT` with its options.
fn compile_command<'a>(alloc: Global) -> Result<Command<'a>, AllocError>
    ensures { IsCommandLine compile_app result }
{
    let names = names_command(alloc, "compile", "map", "out");
    let listed = with_arg(alloc, names, ArgKind::Value, "prt");
    let shared = with_arg(alloc, listed, ArgKind::Value, "threads");
    let coarse = with_arg(alloc, shared, ArgKind::Flag, "fast");
    let hulled = with_arg(alloc, coarse, ArgKind::Flag, "hulls");
    let modelled = with_arg(alloc, hulled, ArgKind::Flag, "models");
    with_arg(alloc, modelled, ArgKind::Flag, "faces")
}

/// `inspect TREE QUERY..`.
fn inspect_command<'a>(alloc: Global) -> Result<Command<'a>, AllocError>
    ensures { IsCommandLine inspect_app result }
{
    let tree = named_command(alloc, "inspect", "tree");
    with_arg(alloc, tree, ArgKind::Many, "query")
}

/// The matches of the words behind `compile`.
pub fn compile_matches<'a>(
    alloc: Global,
    words: &'a [&'a str],
) -> Result<ArgMatches<'a>, WordsFault>
    ensures { IsParsedBy compile_app (bytes_of_words words.entry.now) result }
{
    matches_by(compile_command(alloc), words)
}

/// The matches of the words behind a verb that takes two.
pub fn pair_matches<'a>(
    alloc: Global,
    verb: &'a str,
    words: &'a [&'a str],
) -> Result<ArgMatches<'a>, WordsFault>
    ensures { IsParsedBy (pair_app verb.entry.now) (bytes_of_words words.entry.now) result }
{
    matches_by(names_command(alloc, verb, "first", "second"), words)
}

/// The matches of the words behind `inspect`.
pub fn inspect_matches<'a>(
    alloc: Global,
    words: &'a [&'a str],
) -> Result<ArgMatches<'a>, WordsFault>
    ensures { IsParsedBy inspect_app (bytes_of_words words.entry.now) result }
{
    matches_by(inspect_command(alloc), words)
}

/// The matches of the words behind a verb, where there was memory for its command.
fn matches_by<'a>(
    command: Result<Command<'a>, AllocError>,
    words: &'a [&'a str],
) -> Result<ArgMatches<'a>, WordsFault>
    requires { IfOk command (λ line. is_simple_and_free (app_of line) ≡ true) }
    ensures { (app : App) → IsCommandLine app command.entry → IsParsedBy app (bytes_of_words words.entry.now) result }
{
    match command {
        Ok(command) => parse(command, words),
        Err(_) => Err(WordsFault::Memory),
    }
}

/// The matches of the words behind a verb.
fn parse<'a>(command: Command<'a>, words: &'a [&'a str]) -> Result<ArgMatches<'a>, WordsFault>
    requires { is_simple_and_free (app_of command) ≡ true }
    ensures { IsParsedBy (app_of command.entry) (bytes_of_words words.entry.now) result }
{
    match command.try_get_matches_from(words) {
        Ok(matches) => Ok(matches),
        Err(error) => Err(fault_of(error.kind())),
    }
}

/// Why words are not read, by what the parser says.
fn fault_of(kind: ErrorKind) -> WordsFault
    ensures { result ≡ Usage → kind ≢ OutOfMemory }
{
    match kind {
        ErrorKind::OutOfMemory => WordsFault::Memory,
        _ => WordsFault::Usage,
    }
}
