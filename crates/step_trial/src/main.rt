//! The program `step_trial`: it reads sentences from standard input, one a line, checks them one after another, and writes
//! behind each what is found.
//!
//! Behind a sentence comes its fault, else the text of what it declares, else `good`; `goals` writes the goals of the open
//! proof, `skip` with a closer ends it unchecked, and `reset` begins anew. The rows and what they give were typed from the
//! rules of typing, proofs, printing and faults (README.md): stdin and stdout are the tests of step_core, and so of elab_core,
//! env_core, proof_state and term_print, as data that cost no proof. No program above uses this crate.
#![tactic(auto)]

mod rows;

use rows::Trial;
use std::io;
use std::process::ExitCode;
use stm_base::{Out, StdSink};

fn main(rt: HostRuntime) -> ExitCode {
    let alloc = rt.alloc();
    let Ok(rows) = io::read_to_string(alloc, rt.stdin()) else {
        return ExitCode::from(1);
    };
    let Ok(sink) = StdSink::new(alloc, rt.stdout()) else {
        return ExitCode::from(1);
    };
    let mut out = Out::new(sink);
    let mut trial = Trial::new(alloc);
    for row in rows.as_str().lines() {
        out.put(row.as_bytes());
        out.put(b"\n");
        trial = trial.answer(alloc, row, &mut out);
    }
    let failed = out.failed();
    let _sink = out.into_sink();
    ExitCode::from(if failed { 1 } else { 0 })
}
