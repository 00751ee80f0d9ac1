//! The program `qmapc`: it hands its words, the folder that it runs in and the standard output to
//! `run`, and ends with the status that this answers. Where somebody looks on, it says how far several workers are.
#![tactic(auto)]

mod cleared_sink;
mod progress;
mod terminal;

use crate::cleared_sink::ClearedSink;
use crate::progress::Progress;
use qm_compile::{Status, exit_number, run};
use qm_shelf::{FolderShelf, TermSink};
use std::alloc::AllocError;
use std::process::ExitCode;
use std::rt::{Clock, Env, Files};
use std::thread::Threads;
use std::{env, io};

fn main(rt: HostRuntime) -> ExitCode {
    let status = match run_on_words(&rt) {
        Ok(status) => status,
        Err(AllocError) => Status::Memory,
    };
    ExitCode::from(exit_number(status))
}

/// Runs the program on the words that it was given after its name.
fn run_on_words<R>(rt: &R) -> Result<Status, AllocError>
where
    R: AllocGlobal + Clock + Env + Eprint + Files + Print + Threads + Sync,
{
    let owned = words(rt)?;
    let mut words = Vec::with_capacity(rt.alloc(), owned.len())?;
    for word in &owned {
        words.push(word.as_str())?;
    }
    let mut folder = FolderShelf::over(rt);
    let progress = Progress::new(rt);
    let mut terminal = ClearedSink::over(TermSink::over(rt), &progress);
    let status = run(
        rt,
        rt.alloc(),
        &words,
        &mut folder,
        &mut terminal,
        &progress,
    );
    progress.clear();
    Ok(status)
}

/// The words of the command. Words that are not UTF-8 are no command, so they are read as none.
fn words<R: AllocGlobal + Env>(rt: &R) -> Result<Vec<String>, AllocError> {
    let mut words = Vec::new(rt.alloc());
    match env::args(rt) {
        Ok(args) => {
            for word in args.skip(1) {
                words.push(word)?;
            }
        }
        Err(error) if error.kind() == io::ErrorKind::OutOfMemory => return Err(AllocError),
        Err(_) => {}
    }
    Ok(words)
}
