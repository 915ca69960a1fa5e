//! The document with its history.
ghost use Rattle.std.specs.Prelude.{◌≡◌, ◌≤◌, ◌<◌, ◌+◌, ◌^◌, ◌++◌, [], ◌∷◌, true, false, length, IfOk, OnOk, OnErr};
ghost use Rattle.doc_theory.specs.Histories.{IsNumbered, shut};
ghost use Rattle.doc_core.specs.Histories.{Legal};
ghost use Rattle.doc_core.specs.Kept.{IsReserved, Takes, at, done_by};

use crate::answer::{Answered, answer_request};
use crate::reply::put_lines;
use crate::script::Script;
use base_core::{NoMemory, Steps};
use hist_core::{Entry, History};
use serapi_cmd::Request;
use std::alloc::Global;
use std::marker::Model;
use std::sync::ledger::Ledger;
use stm_base::{Out, Sink};

/// At most so many sentences live in a document.
pub const LIVE_LIMIT: u64 = 1_048_576;

/// What a command came to.
#[derive(Clone, Copy, Debug, PartialEq, Eq)]
pub enum Done {
    /// It was answered, and the next may come.
    Answered,
    /// It was Quit, behind which nothing is asked.
    Quitting,
}

/// The document of a session with its history. Contracts see the history, its spare and the limit of sentences; where it
/// stands follows from history and limit.
#[derive(Drop)]
pub struct Document {
    script: Script,
    history: History,
    closed: bool,
}

impl Model for Document {
    ghost use Rattle.doc_core.specs.Kept.{Held, IsKept};

    ghost Value = { Held };

    ghost view = { λ d. record { history = d.history.items; spare = d.history.spare; limit = d.script.limit } };

    ghost invariant = { λ d. IsKept d.history.items d.history.spare d.script d.closed };
}

impl Document {
    /// A document without sentences, in which at most so many may live.
    pub fn new(alloc: Global, live_limit: u64) -> Result<Document, NoMemory>
        requires { live_limit ≤ LIVE_LIMIT }
        ensures history { IfOk result (λ d. d.history ≡ []) }
        ensures limit { IfOk result (λ d. d.limit ≡ live_limit) }
    {
        let mut history = History::new(alloc);
        history.reserve(1)?;
        Ok(Document {
            script: Script::new(alloc, live_limit),
            history,
            closed: false,
        })
    }

    /// Makes room in the history for a command and for its end.
    pub fn reserve(&mut self) -> Result<(), NoMemory>
        ensures history { self.new.history ≡ self.old.history }
        ensures limit { self.new.limit ≡ self.old.limit }
        ensures reserved { OnOk result (IsReserved self.new) }
        ensures kept { self.old.spare ≤ self.new.spare }
        ensures err { OnErr result (self.new ≡ self.old) }
    {
        self.history.reserve(2)
    }

    /// Answers a request, which has this number among the commands. First it takes the shares of the tag and the room for
    /// Ack and the last lines: there alone it answers `NoMemory`, and then nothing was done. Later want of memory cuts
    /// the command. Its lines are put to `out`.
    pub fn command<K: Sink, L: Ledger>(
        &mut self,
        alloc: Global,
        number: u64,
        request: Request,
        out: &mut Out<K>,
        steps: &mut Steps<L>,
    ) -> Result<Done, NoMemory>
        requires going { (at self.old).closed ≡ false }
        requires no_quit { (at self.old).quit ≡ false }
        requires reserved { IsReserved self.old }
        requires number { number ≡ (at self.old).commands }
        requires numbered { IsNumbered number request }
        ensures done { IfOk result (λ done. done ≡ done_by request) }
        ensures takes { OnOk result (Takes self.old self.new request out.old out.new) }
        ensures spare { OnOk result (self.new.spare + 1 ≡ self.old.spare) }
        ensures limit { self.new.limit ≡ self.old.limit }
        ensures numbered { OnOk result (length self.new.history < 2 ^ 64) }
        ensures err { OnErr result (self.new ≡ self.old) }
        ensures silent { OnErr result (out.new ≡ out.old) }
        ensures steps { steps.new ≡ steps.old }
    {
        let Answered { cut, lines } = answer_request(alloc, &mut self.script, &request)?;
        put_lines(lines.as_slice(), out);
        let done = done_by(&request);
        self.history.push_reserved(Entry::Command {
            number,
            request,
            cut,
            lines,
        });
        Ok(done)
    }

    /// Whether the history has its end.
    pub fn closed(&self) -> bool
        ensures { result ≡ (at self.now).closed }
    {
        self.closed
    }

    /// Ends the history, without memory.
    pub fn close(&mut self)
        requires { (at self.old).closed ≡ false }
        ensures history { self.new.history ≡ self.old.history ++ shut ∷ [] }
        ensures limit { self.new.limit ≡ self.old.limit }
    {
        self.history.push_reserved(Entry::Close);
        self.closed = true;
    }

    /// What was asked and answered, in order.
    pub fn history(&self) -> &History
        ensures items { result.now.items ≡ self.now.history }
        ensures spare { result.now.spare ≡ self.now.spare }
        ensures legal { Legal self.now.limit self.now.history }
    {
        &self.history
    }

    /// The same, where the document isn't needed any more.
    pub fn into_history(self) -> History
        ensures items { result.items ≡ self.history }
        ensures legal { Legal self.limit self.history }
    {
        self.history
    }
}

/// What a request comes to.
fn done_by(request: &Request) -> Done
    ensures { result ≡ done_by request.now }
{
    if request.is_quit() {
        Done::Quitting
    } else {
        Done::Answered
    }
}
