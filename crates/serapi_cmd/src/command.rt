//! Commands.

use base_core::{Bytes, Ids, SharedBytes};

/// A command. Ids are those of sentences; an Add's text is its bytes without the quotes that it was written with.
#[derive(Debug, Drop)]
pub enum Command {
    Add(AddOpts, Bytes),
    Cancel(Ids),
    Exec(u64),
    Query(QueryOpts, QueryKind),
    Join,
    Quit,
}

/// The options of an Add: the id behind which it adds, at most how many sentences, and `verb`, false where it
/// isn't given.
#[derive(Clone, Copy, Debug, PartialEq, Eq)]
pub struct AddOpts {
    pub ontop: Option<u64>,
    pub lim: Option<u64>,
    pub verb: bool,
}

/// The options of a Query: the id that it asks about. The option `pp` has one meaning alone and isn't kept.
#[derive(Clone, Copy, Debug, PartialEq, Eq)]
pub struct QueryOpts {
    pub sid: Option<u64>,
}

/// What a Query asks for; a Definition has the name that is asked for.
#[derive(Debug, Drop)]
pub enum QueryKind {
    Goals,
    Ast,
    Env,
    Definition(Bytes),
}

/// A command with the tag that its answers are given: each line that answers it shares these bytes.
#[derive(Debug, Drop)]
pub struct Tagged {
    pub tag: SharedBytes,
    pub command: Command,
}
