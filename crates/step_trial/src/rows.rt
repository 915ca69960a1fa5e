//! A row, and its answer.
ghost use Rattle.std.specs.Prelude.{◌≡◌, ◌≤◌, ◌<◌, length, IfOk, IsTrue};
ghost use Rattle.vern_parse.specs.Sentences.{closing};
ghost use Rattle.vern_step.specs.Parsed.{kind_in};
ghost use Rattle.script_theory.specs.Kept.{Delegates};
ghost use Rattle.step_core.specs.Standing.{is_open, is_within, state_of};

use base_core::{Bytes, NoMemory, Steps};
use std::alloc::Global;
use std::marker::Brand;
use std::sync::ledger::{Blank, Ledger};
use step_core::{Short, Standing0, Verdict, decl_text, goals_text, one, verdict_text};
use stm_base::{Out, Sink};
use vern_step::{Closer, Kind, Sentence};

/// The state behind the sentences so far, and how many they are.
#[derive(Drop)]
pub struct Trial {
    state: Standing0,
    count: u64,
}

impl Trial {
    /// Nothing is declared.
    pub fn new(alloc: Global) -> Trial {
        Trial {
            state: Standing0::start(alloc),
            count: 0,
        }
    }

    /// Does what a row says, and puts what is found; `reset` begins anew. It goes on with a copy of the state.
    pub fn answer<K: Sink>(self, alloc: Global, row: &str, out: &mut Out<K>) -> Trial {
        if row == "reset" {
            return Trial::new(alloc);
        }
        let id = self.count.saturating_add(1);
        if let Some(text) = row.strip_prefix("try ") {
            try_text(alloc, &self.state, id, text, out);
            return self;
        }
        let state = copied(self.state);
        if row == "goals" {
            put_goals(alloc, &state, out);
            return Trial {
                state,
                count: self.count,
            };
        }
        Trial {
            state: answer_text(alloc, state, id, row, out),
            count: id,
        }
    }
}

/// A copy of a state, or the state itself where memory is wanting.
fn copied(state: Standing0) -> Standing0 {
    match state.copy() {
        Ok(copy) => copy,
        Err(_) => state,
    }
}

/// Checks the sentence of a text in a copy of the state, and puts what is found: nothing of it is kept.
fn try_text<K: Sink>(alloc: Global, state: &Standing0, id: u64, text: &str, out: &mut Out<K>) {
    match state.copy() {
        Ok(copy) => {
            let _ = answer_text(alloc, copy, id, text, out);
        }
        Err(_) => put_line(b"out of memory", out),
    }
}

/// The lines of the goals.
fn put_goals<K: Sink>(alloc: Global, state: &Standing0, out: &mut Out<K>) {
    match goals_text(alloc, state) {
        Ok(Some(text)) => {
            if text.as_slice().is_empty() {
                put_line(b"no goals", out);
            } else {
                put_lines(text.as_slice(), out);
            }
        }
        Ok(None) => put_line(b"none are shown", out),
        Err(_) => put_line(b"out of memory", out),
    }
}

/// Checks the sentence of a row, or, behind `skip`, skips the proof by its closer; and gives the state behind it.
fn answer_text<K: Sink>(
    alloc: Global,
    state: Standing0,
    id: u64,
    row: &str,
    out: &mut Out<K>,
) -> Standing0 {
    if let Some(closer) = row.strip_prefix("skip ") {
        return match sentence_of(alloc, closer) {
            Some(sentence) => answer_skip(alloc, state, &sentence, out),
            None => refuse(state, b"no sentence", out),
        };
    }
    match sentence_of(alloc, row) {
        Some(sentence) => answer_sentence(alloc, state, id, &sentence, out),
        None => refuse(state, b"no sentence", out),
    }
}

/// The sentence of a text.
fn sentence_of(alloc: Global, text: &str) -> Option<Sentence> {
    let bytes = text.as_bytes();
    if bytes.len() > 65_536 {
        return None;
    }
    Sentence::read(alloc, bytes).ok()
}

/// The state as it was, behind a line.
fn refuse<K: Sink>(state: Standing0, line: &[u8], out: &mut Out<K>) -> Standing0 {
    put_line(line, out);
    state
}

/// Checks a sentence, puts what is found, and gives the state behind it.
fn answer_sentence<K: Sink>(
    alloc: Global,
    state: Standing0,
    id: u64,
    sentence: &Sentence,
    out: &mut Out<K>,
) -> Standing0 {
    if state.is_open() != stands_within(sentence.kind()) {
        return refuse(state, b"out of place", out);
    }
    let declared = state.env().len();
    match check::<Brand>(alloc, state, id, sentence, Blank::new(1)) {
        Ok((state, verdict)) => {
            put_found(alloc, &state, declared, &verdict, out);
            state
        }
        Err(Short { state }) => refuse(state, b"out of memory", out),
    }
}

/// Whether a sentence of this kind stands within a proof or ends it.
fn stands_within(kind: Kind) -> bool
    ensures { result ≡ is_within kind }
{
    match kind {
        Kind::Plain | Kind::Begin => false,
        Kind::Inner | Kind::Close(_) => true,
    }
}

/// Checks a sentence with a counter of its own.
fn check<L: Ledger>(
    alloc: Global,
    state: Standing0,
    id: u64,
    sentence: &Sentence,
    blank: Blank,
) -> Result<(Standing0, Verdict), Short>
    requires name { blank.name ≡ L.name }
    requires parts { blank.parts ≡ L.parts }
    requires whole { 0 < L.parts }
    requires place { is_open (state_of state) ≡ is_within (kind_in sentence.now) }
{
    let mut steps: Steps<L> = Steps::new(blank);
    one(alloc, state, id, sentence, &mut steps)
}

/// Skips the open proof by its closer, puts what is declared by that, and gives the state behind it.
fn answer_skip<K: Sink>(
    alloc: Global,
    state: Standing0,
    sentence: &Sentence,
    out: &mut Out<K>,
) -> Standing0 {
    let declared = state.env().len();
    let Kind::Close(closer) = sentence.kind() else {
        return refuse(state, b"no closer", out);
    };
    if !state.is_open() || !delegates(closer) {
        return refuse(state, b"out of place", out);
    }
    match state.skip(closer) {
        Ok(state) => {
            put_found(alloc, &state, declared, &Verdict::Good, out);
            state
        }
        Err(Short { state }) => refuse(state, b"out of memory", out),
    }
}

/// Whether a closer leaves its proof to be checked apart.
fn delegates(closer: Closer) -> bool
    ensures { IsTrue result → Delegates (closing closer) }
{
    match closer {
        Closer::Qed | Closer::Admitted | Closer::Abort => true,
        Closer::Defined => false,
    }
}

/// What is found about a sentence, where so much was declared before it.
fn put_found<K: Sink>(
    alloc: Global,
    state: &Standing0,
    declared: u64,
    verdict: &Verdict,
    out: &mut Out<K>,
) {
    match told(alloc, state, declared, verdict) {
        Ok(text) => put_line(text.as_slice(), out),
        Err(_) => put_line(b"out of memory", out),
    }
}

/// The text of a verdict that isn't good, else of what was declared, or else that it is good.
fn told(
    alloc: Global,
    state: &Standing0,
    declared: u64,
    verdict: &Verdict,
) -> Result<Bytes, NoMemory> {
    if *verdict != Verdict::Good {
        return verdict_text(alloc, verdict);
    }
    let env = state.env();
    let count = env.len();
    if count > declared {
        return decl_text(alloc, env, env.at(count - 1));
    }
    Ok(Bytes::from_slice(alloc, b"good")?)
}

/// A line behind a row.
fn put_line<K: Sink>(line: &[u8], out: &mut Out<K>) {
    out.put(b"  ");
    out.put(line);
    out.put(b"\n");
}

/// Lines behind a row.
fn put_lines<K: Sink>(lines: &[u8], out: &mut Out<K>) {
    out.put(b"  ");
    for byte in lines {
        out.put(&[*byte]);
        if *byte == b'\n' {
            out.put(b"  ");
        }
    }
    out.put(b"\n");
}
