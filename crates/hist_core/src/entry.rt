//! What happened in a session, one by one.
ghost use Rattle.std.specs.Prelude.{◌≡◌};
ghost use Rattle.hist_core.specs.Events.{event, kept_lines};

use base_core::Sequence;
use serapi_ans::Line;
use serapi_cmd::Request;

/// How far a request went.
#[derive(Clone, Copy, Debug, PartialEq, Eq)]
pub enum Cut {
    /// It was answered as if memory had no end.
    Whole,
    /// Memory was wanting behind so many of its steps. A step of an Add is one sentence that it adds.
    After(u64),
}

/// The lines of one entry, in order.
pub type Lines = Sequence<Line>;

/// One event of a session.
#[derive(Debug, Drop)]
pub enum Entry {
    /// A request was answered: its number, how many were answered before; the request; how far it went; and its lines.
    Command {
        number: u64,
        request: Request,
        cut: Cut,
        lines: Lines,
    },
    /// The session ended. This is the last entry.
    Close,
}

impl Entry {
    /// The lines that it keeps, in order; an end has none.
    pub fn lines(&self) -> &[Line]
        ensures { result.now ≡ kept_lines (event self.now) }
    {
        match self {
            Entry::Command { lines, .. } => lines.as_slice(),
            Entry::Close => &[],
        }
    }
}
