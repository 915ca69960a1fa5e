//! How a run ends.
ghost use Rattle.std.specs.Prelude.{◌≡◌, true, false};
ghost use Rattle.std.specs.Io.KnownBytes.{Appends};
ghost use Rattle.doc_theory.specs.Histories.{requests};
ghost use Rattle.session_run.specs.Closing.{is_closed, rendered};
ghost use Rattle.session_run.specs.Headline.{IsSession, IsStatus};
ghost use Rattle.session_run.specs.Serving.{Between, Served};
ghost use Rattle.session_run.specs.Statuses.{status_of as status_after};

use crate::live::Live;
use crate::party::Loss;
use crate::serve::{Service, Stop};
use crate::status::{DONE, NO_MEMORY, READ_FAULT, TOO_LONG, TRUNCATED, WRITE_FAULT};
use hist_core::History;
use sexp_core::InputEnd;
use stm_base::Sink;

/// How a run ended.
#[derive(Drop)]
pub struct Ended<K> {
    /// The exit status.
    pub status: u8,
    /// The sink that was written to.
    pub sink: K,
    /// What was done, in order.
    pub history: History,
    /// How many bytes were taken from the source.
    pub taken: u64,
    /// Whether the source answered its end.
    pub at_end: bool,
}

/// Ends a run whose session is closed: it looks once more for a write fault, and takes the session apart.
pub(crate) fn conclude<K: Sink>(service: Service, live: Live<K>) -> Ended<K>
    requires closed { is_closed live.history ≡ true }
    ensures status { result.status ≡ status_after service.stop live.output.failed }
    ensures known { IsStatus result.status }
    ensures closed { is_closed result.history.items ≡ true }
    ensures clean { live.output.failed ≡ false → (K.faults result.sink ≡ live.output.first_faults)
        × Appends live.output.first_written (K.written result.sink) (rendered result.history.items) }
    ensures session { (source : Between) → Served source service (requests live.history) false → IsSession (record {
      left_before = source.left_before;
      left_after = source.left_after;
      read_faults_before = source.faults_before;
      read_faults_after = source.faults_after;
      written_before = live.output.first_written;
      written_after = K.written result.sink;
      write_faults_before = live.output.first_faults;
      write_faults_after = K.faults result.sink;
      status = result.status;
      taken = result.taken;
      at_end = result.at_end;
      history = result.history.items;
    }) }
{
    let Service {
        stop,
        taken,
        at_end,
    } = service;
    let status = status_of(stop, live.failed());
    let (sink, history) = live.into_parts();
    Ended {
        status,
        sink,
        history,
        taken,
        at_end,
    }
}

/// The status of a run that stopped so, where a write has failed or not. A write fault that was met is still there at
/// the end, so want of memory never stands for one.
fn status_of(stop: Stop, failed: bool) -> u8
    ensures { result ≡ status_after stop failed }
{
    match stop {
        Stop::Quit | Stop::End(InputEnd::Clean) => if failed { WRITE_FAULT } else { DONE },
        Stop::End(InputEnd::Truncated(_)) => TRUNCATED,
        Stop::Fault => READ_FAULT,
        Stop::Limit => TOO_LONG,
        Stop::Lost(Loss::WriteFault) => if failed { WRITE_FAULT } else { NO_MEMORY },
        Stop::Lost(Loss::WantOfMemory) => NO_MEMORY,
    }
}
