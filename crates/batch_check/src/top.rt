//! The top call.
ghost use Rattle.std.specs.Prelude.{◌≡◌, false};
ghost use Rattle.batch_check.specs.Headline.{IsBatch};

use crate::answer::{Answer, answer_text};
use crate::input::{Input, InputEnd, read_input};
use crate::status::{BAD_WORDS, NO_MEMORY, READ_FAULT, TOO_LONG};
use std::alloc::Global;
use stm_base::{Sink, Source};

/// How a run ended.
#[derive(Drop)]
pub struct BatchEnd<K> {
    /// The exit status.
    pub status: u8,
    /// The sink that was written to.
    pub sink: K,
    /// How many bytes were taken from the source.
    pub taken: u64,
    /// Whether the source answered its end.
    pub at_end: bool,
}

/// What the program does, from the words after its name to its status: it reads a text to its end, checks its sentences one
/// after another, and writes what it finds. The stated command has no words: with any word nothing is read or written.
/// Nothing is written before the input's end was met.
pub fn vcheck_main<S: Source, K: Sink>(
    alloc: Global,
    words: &[String],
    source: &mut S,
    sink: K,
) -> BatchEnd<K>
    // What the call did is a batch: what it read and wrote, and the cause of its status.
    ensures batch { IsBatch words.now (record {
      left_before = S.left source.old;
      left_after = S.left source.new;
      read_faults_before = S.faults source.old;
      read_faults_after = S.faults source.new;
      written_before = K.written sink;
      written_after = K.written result.sink;
      write_faults_before = K.faults sink;
      write_faults_after = K.faults result.sink;
      status = result.status;
      taken = result.taken;
      at_end = result.at_end;
    }) }

    // With any word the source is the very one that was handed in; where the end wasn't met, so is the sink.
    ensures untouched_source { result.status ≡ BAD_WORDS → source.new ≡ source.old }
    ensures untouched_sink { result.at_end ≡ false → result.sink ≡ sink }
{
    if !words.is_empty() {
        return BatchEnd {
            status: BAD_WORDS,
            sink,
            taken: 0,
            at_end: false,
        };
    }
    let Input { text, taken, end } = read_input(alloc, source);
    let status = match end {
        InputEnd::Met => {
            let Answer { status, sink } = answer_text(alloc, text.as_slice(), sink);
            return BatchEnd {
                status,
                sink,
                taken,
                at_end: true,
            };
        }
        InputEnd::Fault => READ_FAULT,
        InputEnd::Limit => TOO_LONG,
        InputEnd::NoMemory => NO_MEMORY,
    };
    BatchEnd {
        status,
        sink,
        taken,
        at_end: false,
    }
}
