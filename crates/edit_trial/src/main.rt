//! The program `edit_trial`: it reads commands on ids from standard input and writes each with what edit_core makes of it.
//!
//! A row is a command on one graph. It is written with what was told, and below it comes the line of ids that is left. Its stdin and
//! stdout are the tests of edit_core and vcs_graph, which so are data and cost no proof. It holds no graph of its own to compare with,
//! and no program stands on it.
#![tactic(auto)]

mod command;
mod shown;

use anyhow::Result;
use command::run;
use shown::Shown;
use std::io;
use vcs_graph::Graph;

fn main(rt: HostRuntime) -> Result<()> {
    let text = io::read_to_string(rt.alloc(), rt.stdin())?;
    let mut graph = Graph::new(rt.alloc())?;
    for row in text.as_str().lines() {
        let answer = run(&mut graph, row)?;
        println!(rt; "{row} => {answer}")?;
        let shown = Shown::of(&graph)?;
        println!(rt; "   {shown}")?;
    }
    Ok(())
}
