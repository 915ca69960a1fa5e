//! How a request is answered.
ghost use Rattle.std.specs.Prelude.{◌≡◌, ◌≤◌, IfOk, OnErr};
ghost use Rattle.serapi_cmd.specs.declared.command.Command.TheVariants as command;
ghost use Rattle.doc_core.specs.Answers.{is_simple};
ghost use Rattle.doc_core.specs.Kept.{IsAnswered, Performs};
ghost use Rattle.hist_core.specs.Events.{cut_of};

use crate::add::add_text;
use crate::reply::{bad_lines, begin_lines};
use crate::script::Script;
use base_core::{NoMemory, SharedBytes, SparedSequence};
use hist_core::{Cut, Lines};
use serapi_ans::{Exn, Line};
use serapi_cmd::{AddOpts, Command, Request, Tagged};
use std::alloc::Global;

/// How far a request went, and its lines.
#[derive(Drop)]
pub struct Answered {
    pub cut: Cut,
    pub lines: Lines,
}

/// Answers a request. `NoMemory` comes only before anything is done.
pub fn answer_request(
    alloc: Global,
    script: &mut Script,
    request: &Request,
) -> Result<Answered, NoMemory>
    ensures ok { IfOk result (λ a. IsAnswered script.old request.now (cut_of a.cut) a.lines script.new) }
    ensures err { OnErr result (script.new ≡ script.old) }
    ensures limit { script.new.limit ≡ script.old.limit }
{
    match request {
        Request::Do(tagged) => answer_command(alloc, script, tagged),
        Request::Bad(bad) => Ok(Answered {
            cut: Cut::Whole,
            lines: bad_lines(alloc, bad)?,
        }),
    }
}

/// Answers a command. What is needed for the first line and the last ones is taken before anything is done.
fn answer_command(alloc: Global, script: &mut Script, tagged: &Tagged) -> Result<Answered, NoMemory>
    ensures ok { IfOk result (λ a. IsAnswered script.old (Request.Do tagged.now) (cut_of a.cut) a.lines script.new) }
    ensures err { OnErr result (script.new ≡ script.old) }
    ensures limit { script.new.limit ≡ script.old.limit }
{
    let mut reply = begin_lines(alloc, &tagged.tag)?;
    let stop = perform(
        alloc,
        script,
        &tagged.tag,
        &tagged.command,
        &mut reply.lines,
    );
    let (cut, lines) = reply.finish(stop);
    Ok(Answered { cut, lines })
}

/// Does what a command asks for, puts its lines behind those before, and answers its refusal. With `Err` the steps before
/// stay done, each with its line.
fn perform(
    alloc: Global,
    script: &mut Script,
    tag: &SharedBytes,
    command: &Command,
    lines: &mut SparedSequence<Line>,
) -> Result<Option<Exn>, NoMemory>
    requires { 2 ≤ lines.old.spare }
    ensures room { 2 ≤ lines.new.spare }
    ensures limit { script.new.limit ≡ script.old.limit }
    ensures performs { Performs result tag.now command.now script.old lines.old.items script.new lines.new.items }
{
    match command {
        Command::Add(opts, text) => add(alloc, script, tag, *opts, text.as_slice(), lines),
        Command::Quit => Ok(None),
        _ => Ok(Some(Exn::Unsupported)),
    }
}

/// Does what an Add asks for.
fn add(
    alloc: Global,
    script: &mut Script,
    tag: &SharedBytes,
    opts: AddOpts,
    text: &[u8],
    lines: &mut SparedSequence<Line>,
) -> Result<Option<Exn>, NoMemory>
    requires { 2 ≤ lines.old.spare }
    ensures room { 2 ≤ lines.new.spare }
    ensures limit { script.new.limit ≡ script.old.limit }
    ensures performs { Performs result tag.now (command.Add opts text.now) script.old lines.old.items script.new lines.new.items }
{
    if !is_simple(opts) {
        return Ok(Some(Exn::Unsupported));
    }
    add_text(alloc, script, tag, text, lines)
}

/// Whether neither `ontop` nor `lim` is given.
fn is_simple(opts: AddOpts) -> bool
    ensures { result ≡ is_simple opts }
{
    opts.ontop.is_none() && opts.lim.is_none()
}
