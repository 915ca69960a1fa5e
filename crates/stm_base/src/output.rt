//! A sink that is written to until it first fails.
ghost use Rattle.std.specs.Prelude.{◌≡◌, ◌≤◌, ◌++◌, List, ℕ, true, false, IsTrue};
ghost use Rattle.stm_base.specs.Counts.{Rose};
ghost use Rattle.stm_base.specs.Output.{Grew, IsPut, Output, begun};

use crate::Sink;
use std::marker::Model;
use std::snapshot::Snapshot;

/// Writes whole pieces to a sink, and nothing more once the sink has failed. None of its calls takes memory.
/// For contracts alone it keeps the sink as `new` got it.
pub struct Out<K: Sink> {
    sink: K,
    failed: bool,
    first: Snapshot<K>,
}

impl<K: Sink> Model for Out<K> {
    ghost use Rattle.std.specs.Prelude.{◌≡◌, ◌≤◌, true};
    ghost use Rattle.stm_base.specs.Counts.{Rose};
    ghost use Rattle.stm_base.specs.Output.{Output};

    ghost Value = { Output };

    ghost view = { λ o. record {
      written = K.written o.sink;
      faults = K.faults o.sink;
      failed = o.failed;
      first_written = K.written o.first.value;
      first_faults = K.faults o.first.value;
    } };

    ghost invariant = { λ o. (K.faults o.first.value ≤ K.faults o.sink)
        × (o.failed ≡ true → Rose (K.faults o.first.value) (K.faults o.sink)) };
}

impl<K: Sink> Out<K> {
    /// An Out that hasn't failed.
    pub fn new(sink: K) -> Out<K>
        ensures { result ≡ begun (K.written sink) (K.faults sink) }
    {
        let first = Snapshot::of(&sink);
        Out {
            sink,
            failed: false,
            first,
        }
    }

    /// Writes all of the piece, in as many writes as the sink wants, or as much as goes before the sink fails.
    pub fn put(&mut self, bytes: &[u8])
        ensures { IsPut self.old bytes.now self.new }
    {
        if !self.failed {
            self.failed = write_all(&mut self.sink, bytes);
        }
    }

    /// Whether the sink has failed since `new`.
    pub fn failed(&self) -> bool
        ensures value { result ≡ self.now.failed }
        ensures cause { IsTrue result → Rose self.now.first_faults self.now.faults }
    {
        self.failed
    }

    /// Gives the sink back.
    pub fn into_sink(self) -> K
        ensures written { K.written result ≡ self.written }
        ensures faults { K.faults result ≡ self.faults }
        ensures later { self.first_faults ≤ self.faults }
        ensures cause { self.failed ≡ true → Rose self.first_faults self.faults }
    {
        let Out {
            sink,
            failed: _,
            first: _,
        } = self;
        sink
    }
}

/// Writes all of the piece; true where the sink failed before its end.
fn write_all<K: Sink>(sink: &mut K, bytes: &[u8]) -> bool
    ensures grew { Grew false result (K.written sink.old) (K.written sink.new) bytes.now }
    ensures later { K.faults sink.old ≤ K.faults sink.new }
    ensures passed { result ≡ false → K.faults sink.new ≡ K.faults sink.old }
    ensures cause { IsTrue result → Rose (K.faults sink.old) (K.faults sink.new) }
{
    let mut at = 0;
    while at < bytes.len() {
        let (_, rest) = bytes.split_at(at);
        match sink.write(rest) {
            Ok(n) => at += n,
            Err(_) => return true,
        }
    }
    false
}

/// A law of `put`: two puts in a row are one put of both pieces.
pub fn puts_join()
    ensures { (a b c : Output) (xs ys : List ℕ) → IsPut a xs b → IsPut b ys c → IsPut a (xs ++ ys) c }
{}
