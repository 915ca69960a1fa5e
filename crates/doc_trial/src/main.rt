//! The program `doc_trial`: it reads rows from standard input and writes behind each what a document answers to it.
//!
//! A row has two fields with a tab between them: how many sentences may live in a document, and the text of the one Add
//! that this document gets. Behind the row come the lines of the answer. The rows and their lines were typed from the
//! rules of the document: stdin and stdout are tests of doc_core with a small limit, which so are data and cost no proof.
//! No program above uses this crate.
#![tactic(auto)]

mod rows;

use std::io;
use std::process::ExitCode;
use stm_base::{Out, StdSink};

fn main(rt: HostRuntime) -> ExitCode {
    let alloc = rt.alloc();
    let Ok(rows) = io::read_to_string(alloc, rt.stdin()) else {
        return ExitCode::from(1);
    };
    let Ok(sink) = StdSink::new(alloc, rt.stdout()) else {
        return ExitCode::from(1);
    };
    let mut out = Out::new(sink);
    for row in rows.as_str().lines() {
        out.put(row.as_bytes());
        out.put(b"\n");
        if rows::answer(alloc, row, &mut out).is_err() {
            out.put(b"out of memory\n");
        }
    }
    let failed = out.failed();
    let _sink = out.into_sink();
    ExitCode::from(if failed { 1 } else { 0 })
}
