//! The answer to a text.
ghost use Rattle.std.specs.Prelude.{◌≡◌, ℕ, List};
ghost use Rattle.batch_check.specs.Batch.{batch};
ghost use Rattle.batch_check.specs.Ends.{IsAnsweredSo, between, status_of};
ghost use Rattle.batch_check.specs.Run.{IsFound};

use crate::checked::{Checked, check_text};
use crate::report::put_report;
use crate::status::{CLEAN, FAULTY, NO_MEMORY, WRITE_FAULT};
use base_core::NoMemory;
use std::alloc::Global;
use stm_base::{Out, Sink};

/// How a text was answered.
#[derive(Drop)]
pub(crate) struct Answer<K> {
    pub(crate) status: u8,
    pub(crate) sink: K,
}

/// Checks a text, and writes what is found.
pub(crate) fn answer_text<K: Sink>(alloc: Global, text: &[u8], sink: K) -> Answer<K>
    ensures { IsAnsweredSo (between (K.written sink) (K.written result.sink) (K.faults sink) (K.faults result.sink))
        text.now result.status }
{
    match check_text(alloc, text) {
        Ok(checked) => tell(alloc, &checked, sink),
        Err(_) => Answer {
            status: NO_MEMORY,
            sink,
        },
    }
}

/// Writes what was found of a text.
fn tell<K: Sink>(alloc: Global, checked: &Checked, sink: K) -> Answer<K>
    ensures { (text : List ℕ) → IsFound checked.now (batch text) →
        IsAnsweredSo (between (K.written sink) (K.written result.sink) (K.faults sink) (K.faults result.sink)) text result.status }
{
    let mut out = Out::new(sink);
    let put = put_report(alloc, checked, &mut out);
    let status = status_of(put, out.failed(), checked.is_clean());
    Answer {
        status,
        sink: out.into_sink(),
    }
}

/// The status behind the lines, where memory lasted for them or not, a write has failed or not, and what was found is
/// clean or not. A write fault is told before want of memory.
fn status_of(put: Result<(), NoMemory>, failed: bool, clean: bool) -> u8
    ensures { result ≡ status_of put failed clean }
{
    match put {
        _ if failed => WRITE_FAULT,
        Err(_) => NO_MEMORY,
        Ok(()) if clean => CLEAN,
        Ok(()) => FAULTY,
    }
}
