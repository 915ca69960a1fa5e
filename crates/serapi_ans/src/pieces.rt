//! The values that lines are made of, written.
ghost use Rattle.std.specs.Prelude.{[], ◌∷◌, map, MatchOption, ◌≡◌, ◌++◌};
ghost use Rattle.stm_base.specs.Output.{IsPut};
ghost use Rattle.sexp_theory.specs.Values.{atom, values};
ghost use Rattle.sexp_theory.specs.Writing.{text, texts};
ghost use Rattle.serapi_ans.specs.Lines.{number, pair, triple, list_of};
ghost use Rattle.serapi_ans.specs.Pieces.{opened, answer_head, answer_end};

use itoa::Buffer;
use sexp_core::put_atom;
use stm_base::{Out, Sink};

/// Writes the front of a line that answers the command with a tag.
pub fn begin_answer<K: Sink>(tag: &[u8], out: &mut Out<K>)
    ensures { IsPut out.old (answer_head tag.now) out.new }
{
    out.put(b"(Answer ");
    put_atom(tag, out);
    out.put(b" ");
}

/// Writes the end of a line that answers a command.
pub fn end_answer<K: Sink>(out: &mut Out<K>)
    ensures { IsPut out.old answer_end out.new }
{
    out.put(b")\n");
}

/// Writes a number in decimal.
#[tactic(auto, using(crate::proofs::Numbers::number_text))]
pub fn put_number<K: Sink>(value: u64, out: &mut Out<K>)
    ensures { IsPut out.old (text (number value)) out.new }
{
    out.put(Buffer::new().format(value).as_bytes());
}

/// Writes `(`, a word and a blank.
pub fn open<K: Sink>(word: &[u8], out: &mut Out<K>)
    ensures { IsPut out.old (opened word.now) out.new }
{
    out.put(b"(");
    put_atom(word, out);
    out.put(b" ");
}

/// Writes the list of a word and a number.
pub fn put_numbered<K: Sink>(word: &[u8], value: u64, out: &mut Out<K>)
    ensures { IsPut out.old (text (pair word.now (number value))) out.new }
{
    open(word, out);
    put_number(value, out);
    out.put(b")");
}

/// Writes the list of a word and two numbers.
pub fn put_numbered_twice<K: Sink>(word: &[u8], first: u64, second: u64, out: &mut Out<K>)
    ensures { IsPut out.old (text (triple word.now (number first) (number second))) out.new }
{
    open(word, out);
    put_number(first, out);
    out.put(b" ");
    put_number(second, out);
    out.put(b")");
}

/// Writes the list of a word and a text.
pub fn put_named<K: Sink>(word: &[u8], bytes: &[u8], out: &mut Out<K>)
    ensures { IsPut out.old (text (pair word.now (atom bytes.now))) out.new }
{
    open(word, out);
    put_atom(bytes, out);
    out.put(b")");
}

/// Writes the list of a word, a number and a text.
pub fn put_numbered_text<K: Sink>(word: &[u8], value: u64, bytes: &[u8], out: &mut Out<K>)
    ensures { IsPut out.old (text (triple word.now (number value) (atom bytes.now))) out.new }
{
    open(word, out);
    put_number(value, out);
    out.put(b" ");
    put_atom(bytes, out);
    out.put(b")");
}
