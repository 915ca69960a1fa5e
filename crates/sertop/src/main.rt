//! The program `sertop`: a document manager for proof scripts, over standard input and output.
//!
//! `main` gathers the words of the command line, hands them with standard input and output to `sertop_main`, and
//! ends with its status. `sertop_main` looks at the words and serves a session; its contract is the theorem of
//! this repository. Nothing of the protocol is here.
#![tactic(auto)]

#[cfg(test)]
mod tests;
mod top;

use session_run::{BAD_WORDS, NO_MEMORY};
use std::alloc::{AllocGlobal, Global};
use std::env::{self, Env, FillError};
use std::io::ErrorKind;
use std::process::ExitCode;
use stm_base::{StdSink, StdSource};
pub use top::sertop_main;

fn main(rt: HostRuntime) -> ExitCode {
    let alloc = rt.alloc();
    let words = match words_of(&rt, alloc) {
        Ok(words) => words,
        Err(status) => return ExitCode::from(status),
    };
    let Ok(sink) = StdSink::new(alloc, rt.stdout()) else {
        return ExitCode::from(NO_MEMORY);
    };
    let mut source = StdSource::new(rt.stdin());
    let ended = sertop_main(alloc, words.as_slice(), &mut source, sink);
    ExitCode::from(ended.status)
}

/// The words behind the program's name, which is none of them, whatever its bytes are. Where they can't be had, the
/// status: want of memory, or that one of them isn't UTF-8, which no stated command has.
fn words_of(rt: &(impl Env + AllocGlobal), alloc: Global) -> Result<Vec<String>, u8> {
    match env::args(rt) {
        Ok(args) => args
            .skip(1)
            .collect::<Vec<String>>(alloc)
            .map_err(|_| NO_MEMORY),
        Err(fault) if fault.kind() == ErrorKind::OutOfMemory => Err(NO_MEMORY),
        Err(_) => match rt.arg(1, &mut []) {
            Err(FillError::NotPresent) => Ok(Vec::new(alloc)),
            _ => Err(BAD_WORDS),
        },
    }
}
