//! What is found of a text.
ghost use Rattle.std.specs.Prelude.{◌≡◌, IfOk};
ghost use Rattle.batch_check.specs.Batch.{batch, is_clean_with};
ghost use Rattle.batch_check.specs.Run.{IsFound};

use crate::run::{Run, Step};
use crate::stop::{Stop, stop_of};
use base_core::NoMemory;
use std::alloc::Global;
use step_core::{Standing0, Verdict};
use vern_lex::{cut_sentences, spans_are_of_sentences};

/// A verdict that isn't good, with the id of its sentence.
#[derive(Clone, Copy, Debug, PartialEq, Eq)]
pub struct FaultLine {
    pub id: u64,
    pub verdict: Verdict,
}

/// What is found of a text: the state behind its sentences, their faults in order, and where and why checking stopped, if it
/// did.
#[derive(Drop)]
pub struct Checked {
    pub state: Standing0,
    pub faults: Vec<FaultLine>,
    pub stop: Option<Stop>,
}

/// Checks the sentences of a text one after another, with ids from 2 on, up to the first that is refused.
pub fn check_text(alloc: Global, text: &[u8]) -> Result<Checked, NoMemory>
    ensures { IfOk result (λ checked. IsFound checked (batch text.now)) }
{
    spans_are_of_sentences();
    let cut = cut_sentences(alloc, text)?;
    let mut run = Run::start(alloc);
    for span in cut.spans.as_slice() {
        match run.take(alloc, text, *span)? {
            Step::On(next) => run = next,
            Step::Stopped(run, stop) => return Ok(Checked::of(run, Some(stop))),
        }
    }
    Ok(Checked::of(run, stop_of(cut.fault)))
}

impl Checked {
    ghost use Rattle.batch_check.specs.Run.{findings_of, found_here, progress_of};

    /// What is found where a run ends.
    fn of(run: Run, stop: Option<Stop>) -> Checked
        ensures { findings_of result ≡ found_here (progress_of run) stop }
    {
        Checked {
            state: run.state,
            faults: run.faults,
            stop,
        }
    }

    /// Whether there are no faults, and checking didn't stop.
    pub fn is_clean(&self) -> bool
        ensures { result ≡ is_clean_with (findings_of self.now).faults self.now.stop }
    {
        self.faults.is_empty() && self.stop.is_none()
    }
}
