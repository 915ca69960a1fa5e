//! Serving a source and a sink on one thread.
ghost use Rattle.std.specs.Prelude.{◌≡◌, [], false};
ghost use Rattle.std.specs.Io.KnownBytes.{Appends};
ghost use Rattle.session_run.specs.Closing.{rendered};
ghost use Rattle.session_run.specs.Headline.{IsAnswered, IsSession, IsStatus};

use crate::ending::{Ended, conclude};
use crate::live::Live;
use crate::party::{Answered, Party};
use crate::serve::serve_party;
use crate::status::NO_MEMORY;
use hist_core::History;
use serapi_cmd::Request;
use std::alloc::Global;
use stm_base::{Sink, Source};

impl<K: Sink> Party for Live<K> {
    ghost use Rattle.std.specs.Prelude.{◌≡◌, true, false};
    ghost use Rattle.std.proofs.Common.{refl, ◌∙◌};
    ghost use Rattle.doc_theory.specs.Histories.{requests};
    ghost use Rattle.session_run.specs.Closing.{is_closed};
    ghost use Rattle.session_run.specs.Kept.{Continues};

    ghost asked = { λ l. requests l.history };

    ghost left = { λ l. false };

    ghost ready = { λ l. is_closed l.history ≡ false };

    ghost clean = { λ l. l.output.failed ≡ false };

    ghost ended = { λ l. is_closed l.history ≡ true };

    ghost goes_on = { λ k l. Continues k.output l.output };

    fn next_number(&self) -> u64 {
        self.count_requests()
    }

    fn answer(&mut self, alloc: Global, request: Request) -> Answered {
        self.answer_request(alloc, request)
    }

    fn end(&mut self) {
        self.close()
    }

    ghost stays = { λ p. record { written = refl; faults = refl } };

    ghost joins = { λ p q r a b. record { written = b.written ∙ a.written; faults = b.faults ∙ a.faults } };
}

/// Serves a source and a sink on this thread: takes a piece of the input, answers every whole item in it, and
/// takes the next, up to Quit, the end of the input, a fault or `INPUT_LIMIT`. A failed read or write isn't tried
/// again. Where memory is wanting to make the session, the history is empty; in every other case it ends with
/// Close.
pub fn serve_alone<S: Source, K: Sink>(alloc: Global, source: &mut S, sink: K) -> Ended<K>
    // What the call did is a session: its history, what it read and wrote, and the cause of its status.
    ensures session { IsSession (record {
      left_before = S.left source.old;
      left_after = S.left source.new;
      read_faults_before = S.faults source.old;
      read_faults_after = S.faults source.new;
      written_before = K.written sink;
      written_after = K.written result.sink;
      write_faults_before = K.faults sink;
      write_faults_after = K.faults result.sink;
      status = result.status;
      taken = result.taken;
      at_end = result.at_end;
      history = result.history.items;
    }) }
    ensures known { IsStatus result.status }

    // On one thread every status but 4 and 5 promises that no write failed and all was written.
    ensures whole { IsAnswered result.status → (K.faults result.sink ≡ K.faults sink)
        × Appends (K.written sink) (K.written result.sink) (rendered result.history.items) }

    // Where the history is empty, the source and the sink are the very ones that were handed in.
    ensures untouched_source { result.history.items ≡ [] → source.new ≡ source.old }
    ensures untouched_sink { result.history.items ≡ [] → result.sink ≡ sink }
{
    let mut live = match Live::new(alloc, sink) {
        Ok(live) => live,
        Err(sink) => return unserved(alloc, sink),
    };
    let service = serve_party(alloc, source, &mut live);
    conclude(service, live)
}

/// A run that didn't begin, for want of memory.
fn unserved<K>(alloc: Global, sink: K) -> Ended<K>
    ensures status { result.status ≡ NO_MEMORY }
    ensures sink { result.sink ≡ sink }
    ensures history { result.history.items ≡ [] }
    ensures taken { result.taken ≡ 0 }
    ensures at_end { result.at_end ≡ false }
{
    Ended {
        status: NO_MEMORY,
        sink,
        history: History::new(alloc),
        taken: 0,
        at_end: false,
    }
}
