//! A session as it stands.
ghost use Rattle.std.specs.Prelude.{◌≡◌, ◌<◌, ◌^◌, [], ◌∷◌, ◌++◌, true, false, length, IfOk, IfErr, OnOk, OnErr, IsTrue};
ghost use Rattle.stm_base.specs.Counts.{Rose};
ghost use Rattle.stm_base.specs.Output.{IsPut, begun, fresh};
ghost use Rattle.serapi_ans.specs.Lines.{lines_text};
ghost use Rattle.doc_theory.specs.Histories.{IsNumbered, requests};
ghost use Rattle.doc_core.specs.Histories.{Legal, render};
ghost use Rattle.doc_core.specs.Kept.{done_by};
ghost use Rattle.session_run.specs.Closing.{is_closed};
ghost use Rattle.session_run.specs.Items.{has_quit};
ghost use Rattle.session_run.specs.Kept.{Continues};
ghost use Rattle.session_run.specs.Numbers.{LIVE_LIMIT as live_limit};
ghost use Rattle.session_run.specs.Serving.{Takes, Unless};

use crate::party::{Answered, Loss};
use base_core::{NoMemory, Steps};
use doc_core::{Document, Done, LIVE_LIMIT};
use hist_core::History;
use serapi_cmd::Request;
use std::alloc::Global;
use std::marker::{Brand, Model};
use std::sync::ledger::{Blank, Ledger};
use stm_base::{Out, Sink};

/// A session: its document with the history of what it did, how many requests it answered, and where its lines go.
/// Contracts see its history and its `Out`; what the history renders was put.
pub struct Live<K: Sink> {
    document: Document,
    count: u64,
    out: Out<K>,
}

impl<K: Sink> Model for Live<K> {
    ghost use Rattle.session_run.specs.Kept.{Session, IsKept};

    ghost Value = { Session };

    ghost view = { λ l. record { history = l.document.history; output = l.out } };

    ghost invariant = { λ l. IsKept l.document l.count l.out };
}

impl<K: Sink> Live<K> {
    /// A session that did nothing. Where memory is wanting, the sink comes back.
    pub fn new(alloc: Global, sink: K) -> Result<Live<K>, K>
        ensures history { IfOk result (λ l. l.history ≡ []) }
        ensures output { IfOk result (λ l. l.output ≡ begun (K.written sink) (K.faults sink)) }
        ensures err { IfErr result (λ k. k ≡ sink) }
    {
        match Document::new(alloc, LIVE_LIMIT) {
            Ok(document) => Ok(Live {
                document,
                count: 0,
                out: Out::new(sink),
            }),
            Err(_) => Err(sink),
        }
    }

    /// How many requests were answered.
    pub fn count_requests(&self) -> u64
        ensures { result ≡ length (requests self.now.history) }
    {
        self.count
    }

    /// Answers a request as far as memory lasts, and then looks for a write fault.
    pub fn answer_request(&mut self, alloc: Global, request: Request) -> Answered
        requires ready { is_closed self.old.history ≡ false }
        requires going { has_quit (requests self.old.history) ≡ false }
        requires numbered { IsNumbered (length (requests self.old.history)) request }
        ensures takes { Takes result (requests self.old.history) request (requests self.new.history) false }
        ensures clean { Unless result (self.new.output.failed ≡ false) }
        ensures ready { is_closed self.new.history ≡ false }
        ensures output { Continues self.old.output self.new.output }
    {
        match self.command::<Brand>(alloc, request, Blank::new(1)) {
            Err(_) => Answered::Lost(Loss::WantOfMemory),
            Ok(done) => {
                if self.out.failed() {
                    return Answered::Lost(Loss::WriteFault);
                }
                match done {
                    Done::Quitting => Answered::Quit,
                    Done::Answered => Answered::More,
                }
            }
        }
    }

    // Answers a request as far as memory lasts, with its steps counted on the ledger that the blank is for. Room for it in the
    // history is asked for before anything changes.
    fn command<L: Ledger>(
        &mut self,
        alloc: Global,
        request: Request,
        blank: Blank,
    ) -> Result<Done, NoMemory>
        requires name { blank.name ≡ L.name }
        requires parts { blank.parts ≡ L.parts }
        requires whole { 0 < L.parts }
        requires ready { is_closed self.old.history ≡ false }
        requires going { has_quit (requests self.old.history) ≡ false }
        requires numbered { IsNumbered (length (requests self.old.history)) request }
        ensures ok { OnOk result (requests self.new.history ≡ requests self.old.history ++ request ∷ []) }
        ensures done { IfOk result (λ done. done ≡ done_by request) }
        ensures err { OnErr result (self.new ≡ self.old) }
        ensures ready { is_closed self.new.history ≡ false }
        ensures output { Continues self.old.output self.new.output }
    {
        let mut steps: Steps<L> = Steps::new(blank);
        self.document.reserve()?;
        let done = self
            .document
            .command(alloc, self.count, request, &mut self.out, &mut steps)?;
        self.count += 1;
        Ok(done)
    }

    /// Whether a write has failed.
    pub fn failed(&self) -> bool
        ensures value { result ≡ self.now.output.failed }
        ensures cause { IsTrue result → Rose self.now.output.first_faults self.now.output.faults }
    {
        self.out.failed()
    }

    /// Ends the history, without memory.
    #[tactic(auto, using(crate::proofs::Grown::close_asks, crate::proofs::Grown::close_ends))]
    pub fn close(&mut self)
        requires ready { is_closed self.old.history ≡ false }
        ensures asked { requests self.new.history ≡ requests self.old.history }
        ensures closed { is_closed self.new.history ≡ true }
        ensures failed { self.new.output.failed ≡ self.old.output.failed }
        ensures output { Continues self.old.output self.new.output }
    {
        self.document.close();
    }

    /// The parts of a session.
    pub fn into_parts(self) -> (K, History)
        ensures history { result.1.items ≡ self.history }
        ensures legal { Legal live_limit self.history }
        ensures put { IsPut (fresh self.output) (lines_text (render self.history)) self.output }
        ensures written { K.written result.0 ≡ self.output.written }
        ensures faults { K.faults result.0 ≡ self.output.faults }
        ensures cause { self.output.failed ≡ true → Rose self.output.first_faults self.output.faults }
    {
        let Live {
            document,
            count: _,
            out,
        } = self;
        (out.into_sink(), document.into_history())
    }
}
