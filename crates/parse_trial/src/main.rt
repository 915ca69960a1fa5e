//! The program `parse_trial`: it reads rows from standard input and writes each with what vern_parse makes of it.
//!
//! A row has fields with tabs between them: what is read (`sentence`, `expression`, `shape`, or `depth`, an
//! expression of which only the fault is told), and its text. A text that is many times one piece has five fields:
//! what stands in front, how often the piece comes, the piece, what stands behind, and what closes each piece. Behind
//! the row comes the tree, in which each name has its span and each other tree stands in parentheses with its own,
//! or the offset of the fault. The rows and their trees were typed from the grammar's tables: stdin and stdout are
//! the tests of vern_parse, which so are data and cost no proof. No program above uses this crate.
#![tactic(auto)]

mod formulas;
mod rows;
mod sentences;
mod tactics;
mod told;

use base_core::NoMemory;
use std::io;

fn main(rt: HostRuntime) -> io::Result<()> {
    let rows = io::read_to_string(rt.alloc(), rt.stdin())?;
    for row in rows.as_str().lines() {
        match rows::answer(rt.alloc(), row) {
            Ok(told) => println!(rt; "{row} => {told}")?,
            Err(NoMemory) => println!(rt; "{row} => out of memory")?,
        }
    }
    Ok(())
}
