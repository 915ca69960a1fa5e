//! Values, written.
ghost use Rattle.std.specs.Prelude.{◌≡◌, ◌≤◌, ◌<◌, false, List, map, MatchOption};
ghost use Rattle.std.specs.List.{list_all, prefix_len};
ghost use Rattle.stm_base.specs.Output.{IsPut};
ghost use Rattle.sexp_theory.specs.Values.{values, nesting, nesting_of_all};
ghost use Rattle.sexp_theory.specs.Writing.{atom_text, between, is_bare, is_bare_atom, is_itself, quoted_byte, quoted_bytes, text, texts};
ghost use Rattle.sexp_theory.specs.Places.{most_lists};
ghost use Rattle.sexp_core.specs.Sexp.{meaning};
ghost use Rattle.sexp_core.specs.Lists.{is_list};

use crate::Sexp;
use stm_base::{Out, Sink};

/// Writes the text of a value, with no byte 10 behind it. An atom is written without quotes where it may be, and one
/// space parts two values of a list that aren't both lists. It takes no memory.
#[cycle(write)]
pub fn write<K: Sink>(sexp: &Sexp, out: &mut Out<K>)
    requires { nesting (meaning sexp.now) ≤ most_lists }
    ensures { IsPut out.old (text (meaning sexp.now)) out.new }
{
    match sexp {
        Sexp::Atom(bytes) => put_atom(bytes.as_slice(), out),
        Sexp::List(sexps) => {
            out.put(b"(");
            write_all(sexps, out);
            out.put(b")");
        }
    }
}

/// Writes the values of a list with what stands between them.
#[cycle(write)]
fn write_all<K: Sink>(sexps: &[Sexp], out: &mut Out<K>)
    requires { nesting_of_all (values (map meaning sexps.now)) < most_lists }
    ensures { IsPut out.old (texts (values (map meaning sexps.now))) out.new }
{
    let mut before: Option<&Sexp> = None;
    for sexp in sexps {
        put_between(before, sexp, out);
        write(sexp, out);
        before = Some(sexp);
    }
}

/// Writes what stands between a value of a list and the one before it, if there is one.
#[tactic(auto, using(crate::proofs::Putting::between_two))]
fn put_between<K: Sink>(before: Option<&Sexp>, sexp: &Sexp, out: &mut Out<K>)
    ensures { MatchOption before.entry (out.new ≡ out.old) (λ b. IsPut out.old (between (meaning b.now) (meaning sexp.now)) out.new) }
{
    if let Some(before) = before {
        if !(is_list(before) && is_list(sexp)) {
            out.put(b" ");
        }
    }
}

fn is_list(sexp: &Sexp) -> bool
    ensures { result ≡ is_list (meaning sexp.now) }
{
    matches!(sexp, Sexp::List(_))
}

/// Writes the text of an atom of these bytes, with no byte 10 behind it: without quotes where it may be. It takes no
/// memory.
#[tactic(auto, using(crate::proofs::Putting::bare_written))]
pub fn put_atom<K: Sink>(bytes: &[u8], out: &mut Out<K>)
    ensures { IsPut out.old (atom_text bytes.now) out.new }
{
    if is_bare_atom(bytes) {
        out.put(bytes);
    } else {
        out.put(b"\"");
        put_quoted(bytes, out);
        out.put(b"\"");
    }
}

#[tactic(auto, using(crate::proofs::Putting::bare_atom, crate::proofs::Putting::no_atom))]
fn is_bare_atom(bytes: &[u8]) -> bool
    ensures { result ≡ is_bare_atom bytes.now }
{
    !bytes.is_empty() && are_bare(bytes)
}

fn are_bare(bytes: &[u8]) -> bool
    ensures { result ≡ list_all is_bare bytes.now }
{
    bytes.iter().all(|byte| is_bare(*byte))
}

fn is_bare(byte: u8) -> bool
    ensures { result ≡ is_bare byte }
{
    matches!(byte, b'!' | b'$'..=b'\'' | b'*'..=b':' | b'<'..=b'[' | b']'..=b'{' | b'}' | b'~')
}

/// Writes the bytes as they stand between quotes. Bytes that stand for themselves are put in whole runs.
fn put_quoted<K: Sink>(bytes: &[u8], out: &mut Out<K>)
    ensures { IsPut out.old (quoted_bytes bytes.now) out.new }
{
    let mut rest = bytes;
    while let Some((first, behind)) = rest.split_first() {
        if is_itself(*first) {
            let (run, behind) = rest.split_at(run_length(rest));
            out.put(run);
            rest = behind;
        } else {
            put_escape(*first, out);
            rest = behind;
        }
    }
}

/// How many bytes at the front stand for themselves.
fn run_length(bytes: &[u8]) -> usize
    ensures { result ≡ prefix_len is_itself bytes.now }
{
    bytes.iter().take_while(|byte| is_itself(**byte)).count()
}

fn is_itself(byte: u8) -> bool
    ensures { result ≡ is_itself byte }
{
    matches!(byte, b' ' | b'!' | b'#'..=b'[' | b']'..=b'~')
}

/// Writes the escape of a byte that doesn't stand for itself.
fn put_escape<K: Sink>(byte: u8, out: &mut Out<K>)
    requires { is_itself byte ≡ false }
    ensures { IsPut out.old (quoted_byte byte) out.new }
{
    match byte {
        b'\n' => out.put(b"\\n"),
        b'\t' => out.put(b"\\t"),
        b'\r' => out.put(b"\\r"),
        8 => out.put(b"\\b"),
        b'"' => out.put(b"\\\""),
        b'\\' => out.put(b"\\\\"),
        _ => out.put(&[
            b'\\',
            b'0' + byte / 100,
            b'0' + byte / 10 % 10,
            b'0' + byte % 10,
        ]),
    }
}
