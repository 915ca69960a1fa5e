//! The lines of a command.
ghost use Rattle.std.specs.Prelude.{◌≡◌, ◌≤◌, ◌<◌, ◌-◌, ◌++◌, ◌∷◌, [], length, IfOk, Result, Option};
ghost use Rattle.serapi_ans.specs.Lines.{lines_text};
ghost use Rattle.serapi_ans.specs.declared.line.Line.TheVariants as line;
ghost use Rattle.stm_base.specs.Output.{IsPut};
ghost use Rattle.doc_theory.specs.Answers.{bad_text};
ghost use Rattle.doc_core.specs.Kept.{cut_by, ending, IsOpened};

use base_core::{Bytes, NoMemory, SharedBytes, SparedSequence};
use hist_core::{Cut, Lines};
use serapi_ans::{BadText, Exn, Line, write_line};
use serapi_cmd::{BadLine, InputFault};
use std::alloc::Global;
use stm_base::{Out, Sink};

/// The lines of a command so far, with room for the last ones and their shares of its tag. The last lines are Completed,
/// and before it one for a refusal or for want of memory.
#[derive(Drop)]
pub struct Opened {
    pub lines: SparedSequence<Line>,
    stopped: SharedBytes,
    completed: SharedBytes,
}

/// The first line of a command with a tag.
pub fn begin_lines(alloc: Global, tag: &SharedBytes) -> Result<Opened, NoMemory>
    ensures { IfOk result (λ o. IsOpened tag.now o) }
{
    let first = tag.share()?;
    let stopped = tag.share()?;
    let completed = tag.share()?;
    let mut lines = SparedSequence::new(alloc);
    lines.reserve(3)?;
    lines.push_reserved(Line::Ack(first));
    Ok(Opened {
        lines,
        stopped,
        completed,
    })
}

impl Opened {
    /// All lines of a command that stopped so, and how far it went: a line for each step stands behind the first.
    pub fn finish(self, stop: Result<Option<Exn>, NoMemory>) -> (Cut, Lines)
        requires tag { self.completed ≡ self.stopped }
        requires room { 2 ≤ self.lines.spare }
        requires first { 0 < length self.lines.items }
        ensures cut { result.0 ≡ cut_by stop (length self.lines.items - 1) }
        ensures lines { result.1 ≡ self.lines.items ++ ending self.stopped stop }
    {
        let Opened {
            mut lines,
            stopped,
            completed,
        } = self;
        let steps = lines.len() as u64 - 1;
        let cut = match stop {
            Ok(None) => Cut::Whole,
            Ok(Some(refusal)) => {
                lines.push_reserved(Line::CoqExn(stopped, refusal));
                Cut::Whole
            }
            Err(_) => {
                lines.push_reserved(Line::OutOfMemory(stopped));
                Cut::After(steps)
            }
        };
        lines.push_reserved(Line::Completed(completed));
        (cut, Lines::from_vec(lines.into_vec()))
    }
}

/// The line of an item that is no command.
pub fn bad_lines(alloc: Global, bad: &BadLine) -> Result<Lines, NoMemory>
    ensures { IfOk result (λ lines. lines ≡ line.BadInput bad.now.number (bad_text bad.now.kind) bad.now.offset ∷ []) }
{
    let text = fault_text(alloc, &bad.kind)?;
    let mut lines = Lines::new(alloc);
    lines.push(Line::BadInput(bad.number, text, bad.offset))?;
    Ok(lines)
}

/// How a line tells why an item is no command.
fn fault_text(alloc: Global, kind: &InputFault) -> Result<BadText, NoMemory>
    ensures { IfOk result (λ text. text ≡ bad_text kind.now) }
{
    let word = match kind {
        InputFault::StrayClose => "StrayClose",
        InputFault::BadEscape => "BadEscape",
        InputFault::TooDeep => "TooDeep",
        InputFault::TooLong => "TooLong",
        InputFault::HashBar => "HashBar",
        InputFault::UnknownCommand => "UnknownCommand",
        InputFault::BadField(name) => return Ok(BadText::BadField(Bytes::from_slice(
            alloc,
            name.as_slice(),
        )?)),
        InputFault::BadNumber => "BadNumber",
    };
    Ok(BadText::Word(Bytes::from_slice(alloc, word.as_bytes())?))
}

/// Puts the texts of lines, without memory.
pub fn put_lines<K: Sink>(lines: &[Line], out: &mut Out<K>)
    ensures { IsPut out.old (lines_text lines.now) out.new }
{
    for line in lines {
        write_line(line, out);
    }
}
