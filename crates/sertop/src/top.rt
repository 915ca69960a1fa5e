//! The top call.
ghost use Rattle.std.specs.Prelude.{◌≡◌, []};
ghost use Rattle.session_run.specs.Headline.{HasWords, IsSession};

use session_run::{BAD_WORDS, Ended, History, serve_alone};
use std::alloc::Global;
use stm_base::{Sink, Source};

/// What the program does, from the words after its name to its status. The stated command has no words: with
/// any word nothing is read or written. Without one it is `serve_alone`.
pub fn sertop_main<S: Source, K: Sink>(
    alloc: Global,
    words: &[String],
    source: &mut S,
    sink: K,
) -> Ended<K>
    // With any word the status is 2.
    ensures words { HasWords words.now result.status result.taken result.history.items }

    // What the call did is a session: its history, what it read and wrote, and the cause of its status.
    ensures session { IsSession (record {
      left_before = S.left source.old;
      left_after = S.left source.new;
      read_faults_before = S.faults source.old;
      read_faults_after = S.faults source.new;
      written_before = K.written sink;
      written_after = K.written result.sink;
      write_faults_before = K.faults sink;
      write_faults_after = K.faults result.sink;
      status = result.status;
      taken = result.taken;
      at_end = result.at_end;
      history = result.history.items;
    }) }

    // Where the history is empty, the source is the very one that was handed in.
    ensures untouched_source { result.history.items ≡ [] → source.new ≡ source.old }
{
    if !words.is_empty() {
        return Ended {
            status: BAD_WORDS,
            sink,
            history: History::new(alloc),
            taken: 0,
            at_end: false,
        };
    }
    serve_alone(alloc, source, sink)
}
