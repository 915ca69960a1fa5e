//! A command, and what it comes to.
ghost use Rattle.std.specs.Prelude.{IsTrue};
ghost use Rattle.edit_core.specs.Steps.{Allows};

use base_core::{Ids, NoMemory};
use edit_core::{Cancelled, Edited, Step, add_at_cursor, cancel, close_zone, edit_at};
use std::fmt;
use vcs_graph::Graph;

/// What a command came to.
#[derive(Drop)]
pub enum Answer {
    /// The id came in.
    Added,
    /// An edit, as it is told.
    Edited(Edited),
    /// A Cancel.
    Cancelled(Cancelled),
    /// The zone is closed, and this is its kept closer.
    Folded(u64),
    /// All ids went.
    Emptied,
    /// The command can't be asked for where the cursor stands, or with this id.
    Refused,
    /// The row is no command.
    Unread,
}

/// Does what a row says: a word, and the ids that it is about.
pub fn run(graph: &mut Graph, row: &str) -> Result<Answer, NoMemory> {
    let (word, rest) = row.split_once(' ').unwrap_or((row, ""));
    let id = rest.parse::<u64>().unwrap_or(0);
    match word {
        "plain" => add(graph, id, Step::Plain),
        "lemma" => add(graph, id, Step::Begin),
        "opaque" => add(graph, id, Step::Close(true)),
        "clear" => add(graph, id, Step::Close(false)),
        "fold" => fold(graph),
        "edit" => Ok(Answer::Edited(edit_at(graph, id)?)),
        "cancel" => Ok(Answer::Cancelled(cancel_all(graph, rest)?)),
        "empty" => Ok(empty(graph)),
        _ => Ok(Answer::Unread),
    }
}

/// An id comes in at the cursor, where it may.
fn add(graph: &mut Graph, id: u64, step: Step) -> Result<Answer, NoMemory> {
    if id < 2 || graph.live(id) || !allows(graph, step) {
        return Ok(Answer::Refused);
    }
    add_at_cursor(graph, id, step)?;
    Ok(Answer::Added)
}

/// Whether the cursor stands where such a sentence may come in.
#[tactic(auto, using(crate::proofs::Cursors::at_end, crate::proofs::Cursors::in_proof))]
fn allows(graph: &Graph, step: Step) -> bool
    ensures { IsTrue result → Allows step graph.now }
{
    match step {
        Step::Plain => true,
        Step::Begin => match graph.open_lemma() {
            Some(_) => false,
            None => true,
        },
        Step::Close(_) => match (graph.zone(), graph.open_lemma()) {
            (None, Some(_)) => true,
            _ => false,
        },
    }
}

/// The zone is closed, where one is open.
#[tactic(auto, using(crate::proofs::Cursors::in_zone))]
fn fold(graph: &mut Graph) -> Result<Answer, NoMemory> {
    match graph.zone() {
        Some(_) => Ok(Answer::Folded(close_zone(graph)?)),
        None => Ok(Answer::Refused),
    }
}

fn empty(graph: &mut Graph) -> Answer {
    graph.drop_after(1);
    Answer::Emptied
}

fn cancel_all(graph: &mut Graph, list: &str) -> Result<Cancelled, NoMemory> {
    let mut ids = Ids::new(graph.allocator());
    for word in list.split_whitespace() {
        ids.push(word.parse::<u64>().unwrap_or(0))?;
    }
    cancel(graph, &ids)
}

impl fmt::Display for Answer {
    fn fmt<W: fmt::Write>(&self, f: &mut fmt::Formatter<W>) -> fmt::Result {
        match self {
            Answer::Added => f.write_str("added"),
            Answer::Edited(edited) => write_edited(f, *edited),
            Answer::Cancelled(cancelled) => write_cancelled(f, cancelled),
            Answer::Folded(stop) => write!(f, "folded, closed by {stop}"),
            Answer::Emptied => f.write_str("emptied"),
            Answer::Refused => f.write_str("refused"),
            Answer::Unread => f.write_str("unread"),
        }
    }
}

fn write_edited<W: fmt::Write>(f: &mut fmt::Formatter<W>, edited: Edited) -> fmt::Result {
    match edited {
        Edited::NewTip(cursor) => write!(f, "NewTip {cursor}"),
        Edited::Focus(start, stop, tip) => write!(f, "Focus {start} {stop} {tip}"),
        Edited::ZoneOpen(stop) => write!(f, "ZoneOpen {stop}"),
        Edited::NoSuchState => f.write_str("NoSuchState"),
    }
}

/// The edits, each with a comma behind it, the ids that went, how many ids were treated, and what ended it.
fn write_cancelled<W: fmt::Write>(f: &mut fmt::Formatter<W>, cancelled: &Cancelled) -> fmt::Result {
    for edited in cancelled.edits.as_slice() {
        write_edited(f, *edited)?;
        f.write_str(", ")?;
    }
    f.write_str("gone")?;
    for id in cancelled.removed.as_slice() {
        write!(f, " {id}")?;
    }
    let treated = cancelled.treated;
    write!(f, ", treated {treated}")?;
    match cancelled.stopped {
        Some((id, stop)) => write!(f, ", ended by {id} at {stop}"),
        None => Ok(()),
    }
}
