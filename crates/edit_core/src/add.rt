//! One id more at the cursor.
ghost use Rattle.std.specs.Prelude.{◌≡◌, IsOk, IfOk, OnOk, OnErr};
ghost use Rattle.line_theory.specs.Lines.{refolded, InZone};
ghost use Rattle.edit_core.specs.Steps.{Fits, stepped, stop_in};

use base_core::NoMemory;
use vcs_graph::{Branch, Graph};

/// What the sentence does that comes in.
#[derive(Clone, Copy)]
pub enum Step {
    /// It neither begins nor closes a proof.
    Plain,
    /// It is a lemma, and begins a proof.
    Begin,
    /// It closes the proof that is open; the flag says whether the block can be opened again.
    Close(bool),
}

/// The id of a sentence comes in at the cursor, which moves behind it. With `Err` the graph is as before.
pub fn add_at_cursor(graph: &mut Graph, id: u64, step: Step) -> Result<(), NoMemory>
    requires { Fits id step graph.old }
    ensures ok { OnOk result (graph.new ≡ stepped id step graph.old) }
    ensures err { OnErr result (graph.new ≡ graph.old) }
{
    match step {
        Step::Plain => graph.commit(id)?,
        Step::Begin => graph.branch_at(id, Branch::Proof(id))?,
        Step::Close(opaque) => graph.merge(id, opaque)?,
    };
    Ok(())
}

/// The zone is closed: its kept closer stays where it is, and the cursor stands at the end. Answers the kept closer's id, and takes no
/// memory.
pub fn close_zone(graph: &mut Graph) -> Result<u64, NoMemory>
    requires { InZone graph.old.focus }
    ensures line { graph.new ≡ refolded graph.old }
    ensures id { IfOk result (λ n. n ≡ stop_in graph.old.focus) }
    ensures ok { IsOk result }
{
    let stop = match graph.zone() {
        Some((_, stop)) => stop,
        None => 1,
    };
    graph.rewrite_merge()?;
    Ok(stop)
}
