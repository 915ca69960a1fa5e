//! The program `kernel_trial`: it reads rows from standard input, and writes behind each whether its tree is a proof.
//!
//! A row is a sentence, which declares something for the rows behind it; `reset`, which begins anew with nothing declared;
//! a value with a context, a goal and the rules of a tree; or two formulas or terms, of which normal forms are told, as
//! README.md tells. The rows and their answers were typed
//! from the table of the kernel's rules: stdin and stdout are the tests of kernel_core, and so of form_core, as data that
//! cost no proof. No program above uses this crate.
#![tactic(auto)]

mod evidence;
mod forms;
mod rows;
mod rules;
mod spell;

use rows::Trial;
use std::io;
use std::process::ExitCode;
use stm_base::{Out, StdSink};

fn main(rt: HostRuntime) -> ExitCode {
    let alloc = rt.alloc();
    let Ok(rows) = io::read_to_string(alloc, rt.stdin()) else {
        return ExitCode::from(1);
    };
    let Ok(sink) = StdSink::new(alloc, rt.stdout()) else {
        return ExitCode::from(1);
    };
    let mut out = Out::new(sink);
    let mut trial = Trial::new(alloc);
    for row in rows.as_str().lines() {
        out.put(row.as_bytes());
        out.put(b"\n  ");
        let (next, told) = trial.answer(alloc, row);
        trial = next;
        out.put(told.text());
        out.put(b"\n");
    }
    let failed = out.failed();
    let _sink = out.into_sink();
    ExitCode::from(if failed { 1 } else { 0 })
}
