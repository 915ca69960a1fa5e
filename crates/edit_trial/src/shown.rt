//! The line of a graph, as it is written.

use base_core::{Ids, NoMemory};
use std::fmt;
use vcs_graph::Graph;

/// A graph with its ids in order.
#[derive(Drop)]
pub struct Shown<'a> {
    graph: &'a Graph,
    ids: Ids,
}

impl<'a> Shown<'a> {
    pub fn of(graph: &'a Graph) -> Result<Shown<'a>, NoMemory> {
        let ids = graph.line()?;
        Ok(Shown { graph, ids })
    }
}

/// Each id has a blank before it, and the cursor is `^`. A block stands between `[` and `]`, or `)` where it can't be opened again; one
/// that is open at the end has no end. An id has `?` behind it if the graph says of it that it isn't there, or stands behind another.
/// Behind the ids come the zone and the tip.
impl fmt::Display for Shown<'_> {
    fn fmt<W: fmt::Write>(&self, f: &mut fmt::Formatter<W>) -> fmt::Result {
        let mut before = 1;
        write_cursor(f, self.graph, before)?;
        for id in self.ids.as_slice() {
            write_id(f, self.graph, *id)?;
            if !stands_behind(self.graph, *id, before) {
                f.write_str("?")?;
            }
            write_cursor(f, self.graph, *id)?;
            before = *id;
        }
        if let Some((start, stop)) = self.graph.zone() {
            write!(f, ", zone {start} to {stop}")?;
        }
        let tip = self.graph.tip();
        write!(f, ", tip {tip}")
    }
}

fn write_cursor<W: fmt::Write>(f: &mut fmt::Formatter<W>, graph: &Graph, id: u64) -> fmt::Result {
    if graph.cursor() == id {
        f.write_str(" ^")?;
    }
    Ok(())
}

/// An id, with what begins and what ends its block.
fn write_id<W: fmt::Write>(f: &mut fmt::Formatter<W>, graph: &Graph, id: u64) -> fmt::Result {
    let Some(block) = graph.block(id) else {
        return write!(f, " {id}");
    };
    if block.start == id {
        return write!(f, " [{id}");
    }
    write!(f, " {id}")?;
    if block.stop == Some(id) {
        f.write_str(if block.opaque { "]" } else { ")" })?;
    }
    Ok(())
}

fn stands_behind(graph: &Graph, id: u64, before: u64) -> bool {
    graph.live(id) && graph.before(id) == before
}
