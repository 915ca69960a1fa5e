//! The program `vcheck`: it checks a text of proofs from standard input, and writes what it finds to standard output.
//!
//! `main` gathers the words of the command line, hands them with standard input and output to `vcheck_main` of
//! batch_check, and ends with its status. What is read, checked and written is said there, by the contract of that call.
#![tactic(auto)]

#[cfg(test)]
mod tests;

use batch_check::{BAD_WORDS, NO_MEMORY, vcheck_main};
use std::alloc::{AllocGlobal, Global};
use std::env::{self, Env, FillError};
use std::io::ErrorKind;
use std::process::ExitCode;
use stm_base::{StdSink, StdSource};

fn main(rt: HostRuntime) -> ExitCode {
    let alloc = rt.alloc();
    let words = match words_of(&rt, alloc) {
        Ok(words) => words,
        Err(status) => return ExitCode::from(status),
    };
    let Ok(sink) = StdSink::new(alloc, rt.stdout()) else {
        return ExitCode::from(NO_MEMORY);
    };
    let mut source = StdSource::new(rt.stdin());
    let end = vcheck_main(alloc, words.as_slice(), &mut source, sink);
    ExitCode::from(end.status)
}

/// The words behind the program's name, which is none of them, whatever its bytes are. Where they can't be had, the
/// status: want of memory, or that one of them isn't UTF-8, which no stated command has.
fn words_of(rt: &(impl Env + AllocGlobal), alloc: Global) -> Result<Vec<String>, u8> {
    match env::args(rt) {
        Ok(args) => args
            .skip(1)
            .collect::<Vec<String>>(alloc)
            .map_err(|_| NO_MEMORY),
        Err(fault) if fault.kind() == ErrorKind::OutOfMemory => Err(NO_MEMORY),
        Err(_) => match rt.arg(1, &mut []) {
            Err(FillError::NotPresent) => Ok(Vec::new(alloc)),
            _ => Err(BAD_WORDS),
        },
    }
}
