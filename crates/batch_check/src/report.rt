//! The lines of what is found.
ghost use Rattle.std.specs.Prelude.{◌≡◌, ◌++◌, codes, map};
ghost use Rattle.std.specs.Fmt.{decimal};
ghost use Rattle.env_core.specs.Meaning.{declarations};
ghost use Rattle.stm_base.specs.Output.{IsPut};
ghost use Rattle.batch_check.specs.Report.{environment_lines, fault_text, kind_text, line, lines_of, stop_lines};
ghost use Rattle.batch_check.specs.Run.{fault_in, findings_of, report_of};
ghost use Rattle.batch_check.specs.Puts.{Puts};

use crate::checked::{Checked, FaultLine};
use crate::stop::{Stop, StopKind};
use base_core::NoMemory;
use env_core::Env;
use itoa::Buffer;
use std::alloc::Global;
use step_core::{decl_text, verdict_text};
use stm_base::{Out, Sink};

/// Puts the lines of what was found: the declarations, the oldest first, the faults in order, and the stop. Where memory is
/// wanting, some first ones were put. Behind a failed write nothing is rendered.
pub(crate) fn put_report<K: Sink>(
    alloc: Global,
    checked: &Checked,
    out: &mut Out<K>,
) -> Result<(), NoMemory>
    ensures { Puts result out.old (report_of (findings_of checked.now)) out.new }
{
    put_environment(alloc, checked.state.env(), out)?;
    put_faults(alloc, checked.faults.as_slice(), out)?;
    put_stop(checked.stop, out);
    Ok(())
}

/// Puts a line for each declaration, the oldest first.
fn put_environment<K: Sink>(alloc: Global, env: &Env, out: &mut Out<K>) -> Result<(), NoMemory>
    ensures { Puts result out.old (environment_lines (declarations env.now)) out.new }
{
    for number in 0..env.len() {
        if out.failed() {
            return Ok(());
        }
        let text = decl_text(alloc, env, env.at(number))?;
        put_line(text.as_slice(), out);
    }
    Ok(())
}

/// Puts a line for each fault.
fn put_faults<K: Sink>(
    alloc: Global,
    faults: &[FaultLine],
    out: &mut Out<K>,
) -> Result<(), NoMemory>
    ensures { Puts result out.old (lines_of fault_text (map fault_in faults.now)) out.new }
{
    for fault in faults {
        if out.failed() {
            return Ok(());
        }
        let text = verdict_text(alloc, &fault.verdict)?;
        put_fault(fault.id, text.as_slice(), out);
    }
    Ok(())
}

/// Puts the line of a fault at the sentence with an id.
fn put_fault<K: Sink>(id: u64, text: &[u8], out: &mut Out<K>)
    ensures { IsPut out.old (line (codes "fault " ++ (decimal id ++ (codes ": " ++ text.now)))) out.new }
{
    out.put(b"fault ");
    put_numbered(id, text, out);
}

/// Puts the line of a stop, if there is one.
fn put_stop<K: Sink>(stop: Option<Stop>, out: &mut Out<K>)
    ensures { IsPut out.old (stop_lines stop) out.new }
{
    if let Some(Stop { at, kind }) = stop {
        out.put(b"stopped at ");
        put_numbered(at, name_of(kind), out);
    }
}

/// The name of a kind of stop.
fn name_of(kind: StopKind) -> &'static [u8]
    ensures { result.now ≡ kind_text kind }
{
    match kind {
        StopKind::Parse => b"Parse",
        StopKind::NoOpenProof => b"NoOpenProof",
        StopKind::ProofOpen => b"ProofOpen",
        StopKind::TooMany => b"TooMany",
    }
}

/// Puts a number, and behind it what is told of it, to the end of the line.
fn put_numbered<K: Sink>(number: u64, text: &[u8], out: &mut Out<K>)
    ensures { IsPut out.old (line (decimal number ++ (codes ": " ++ text.now))) out.new }
{
    out.put(Buffer::new().format(number).as_bytes());
    out.put(b": ");
    put_line(text, out);
}

/// Puts a text and a line end.
fn put_line<K: Sink>(text: &[u8], out: &mut Out<K>)
    ensures { IsPut out.old (line text.now) out.new }
{
    out.put(text);
    out.put(b"\n");
}
