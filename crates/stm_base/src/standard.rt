//! Standard input and standard output: the edge that is trusted to give and to take the real bytes.
ghost use Rattle.std.specs.Prelude.{◌≡◌, ◌≢◌, ◌<◌, ◌≤◌, [], length, take, Some, None, IfOk, OnErr, OnOk};
ghost use Rattle.std.specs.Io.{WritesAtMost};
ghost use Rattle.std.specs.Io.Buffered.{writer_buffer, writer_contents};
ghost use Rattle.std.specs.Io.KnownBytes.{Appends};
ghost use Rattle.stm_base.specs.Counts.{HasCause};
ghost use Rattle.stm_base.specs.Standard.{gathered, EndsLine};

use crate::{Failed, Sink, Source};
use base_core::NoMemory;
use std::alloc::Global;
use std::io::{self, BufWriter, Read, Write};
use std::rt::{Stdin, Stdout};

/// Standard input. It tells no bytes. Each error of the system is a fault.
#[derive(Drop)]
pub struct StdSource {
    stdin: Stdin,
    faults: u64,
}

impl StdSource {
    pub fn new(stdin: Stdin) -> StdSource
        ensures { result.faults ≡ 0 }
    {
        StdSource { stdin, faults: 0 }
    }
}

impl Source for StdSource {
    ghost left = { λ _. None };

    ghost faults = { λ s. s.faults };

    fn read(&mut self, buf: &mut [u8]) -> Result<usize, Failed> {
        match self.stdin.read(buf) {
            Ok(count) => Ok(count),
            Err(_) => {
                self.faults = self.faults.saturating_add(1);
                Err(Failed)
            }
        }
    }
}

/// Standard output. It tells no bytes. An interrupted write is tried again; each other error of the system is a
/// fault, and so is a write that takes nothing of a piece that isn't empty. The pieces of a line are gathered, and
/// go out with the piece that ends the line, whole where the line has less than 8,192 bytes; so nothing that was
/// answered waits in here while input is read. At a fault what was gathered is let go, and each later write is a
/// fault.
#[derive(Drop)]
pub struct StdSink {
    stdout: Option<BufWriter<Stdout>>,
    faults: u64,
}

impl StdSink {
    pub fn new(alloc: Global, stdout: Stdout) -> Result<StdSink, NoMemory>
        ensures faults { IfOk result (λ s. s.faults ≡ 0) }
        ensures empty { IfOk result (λ s. gathered s ≡ Some []) }
    {
        match BufWriter::new(alloc, stdout) {
            Ok(stdout) => Ok(StdSink {
                stdout: Some(stdout),
                faults: 0,
            }),
            Err(_) => Err(NoMemory),
        }
    }

    /// Lets go of what was gathered: a writer that is dropped would send it once more.
    fn close(&mut self)
        ensures faults { self.new.faults ≡ self.old.faults }
        ensures closed { gathered self.new ≡ None }
    {
        if let Some(stdout) = self.stdout.take() {
            stdout.into_parts();
        }
    }
}

/// Gathers the front of a piece, and sends out what was gathered where that ends a line.
fn gather<W: Write + Drop>(stdout: &mut BufWriter<W>, bytes: &[u8]) -> io::Result<usize>
    ensures bound { IfOk result (λ n. n ≤ length bytes.now) }
    ensures bytes { IfOk result (λ n. Appends (writer_contents W.contents stdout.old) (writer_contents W.contents stdout.new)
        (take n bytes.now)) }
    ensures sent { IfOk result (λ n. EndsLine (take n bytes.now) → writer_buffer stdout.new ≡ []) }
{
    let count = stdout.write(bytes)?;
    if bytes[..count].ends_with(b"\n") {
        stdout.flush()?;
    }
    Ok(count)
}

impl Sink for StdSink {
    ghost written = { λ _. None };

    ghost faults = { λ s. s.faults };

    fn write(&mut self, bytes: &[u8]) -> Result<usize, Failed>
        ensures bound { WritesAtMost result bytes.now }
        ensures some { IfOk result (λ n. 0 < length bytes.now → 0 < n) }
        ensures cause { HasCause self.old.faults self.new.faults result }
        ensures sent { IfOk result (λ n. EndsLine (take n bytes.now) → gathered self.new ≡ Some []) }
        ensures closed { OnErr result (gathered self.new ≡ None) }
        ensures shut { OnOk result (gathered self.old ≢ None) }
    {
        if let Some(stdout) = &mut self.stdout {
            match gather(stdout, bytes) {
                Ok(count) if count > 0 || bytes.is_empty() => return Ok(count),
                _ => {}
            }
        }
        self.close();
        self.faults = self.faults.saturating_add(1);
        Err(Failed)
    }
}
