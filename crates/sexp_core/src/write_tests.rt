//! What is written for a table of values, typed from the format.
ghost use Rattle.std.specs.Prelude.{◌≤◌, map, IsTrue};
ghost use Rattle.sexp_theory.specs.Values.{values, nesting, nesting_of_all};
ghost use Rattle.sexp_theory.specs.Places.{most_lists};
ghost use Rattle.sexp_core.specs.Sexp.{meaning};

use crate::*;
use base_core::{Bytes, NoMemory};
use std::alloc::Global;
use std::process::Abort;
use std::test::Fail;
use stm_base::{MemSink, Out};

/// Whether at most so many lists stand inside one another.
#[cycle(nests)]
fn nests(sexp: &Sexp, most: u32) -> bool
    ensures { IsTrue result → nesting (meaning sexp.now) ≤ most }
{
    match sexp {
        Sexp::Atom(_) => true,
        Sexp::List(sexps) => {
            if most == 0 {
                return false;
            }
            all_nest(sexps, most - 1)
        }
    }
}

#[cycle(nests)]
fn all_nest(sexps: &[Sexp], most: u32) -> bool
    ensures { IsTrue result → nesting_of_all (values (map meaning sexps.now)) ≤ most }
{
    for sexp in sexps {
        if !nests(sexp, most) {
            return false;
        }
    }
    true
}

/// The value that the signs build: a letter or another sign is an atom of that byte, and a digit makes a list of
/// so many of the values before it.
fn build(alloc: Global, signs: &str) -> Result<Sexp, Fail> {
    let mut built: Vec<Sexp> = Vec::new(alloc);
    for sign in signs.as_bytes() {
        let sexp = if sign.is_ascii_digit() {
            let first = built.len().saturating_sub((*sign - b'0') as usize);
            Sexp::List(built.split_off(first)?)
        } else {
            Sexp::Atom(Bytes::from_slice(alloc, &[*sign])?)
        };
        built.push(sexp)?;
    }
    Ok(built.pop().unwrap_or(Sexp::List(Vec::new(alloc))))
}

/// Writes the value in pieces of at most so many bytes, and compares what was written.
fn check(
    rt: &(impl Abort + AllocGlobal),
    sexp: &Sexp,
    most: usize,
    want: &[u8],
) -> Result<(), Fail> {
    assert!(rt; nests(sexp, 256));
    compare(rt, sexp, most, want)
}

fn compare(
    rt: &(impl Abort + AllocGlobal),
    sexp: &Sexp,
    most: usize,
    want: &[u8],
) -> Result<(), Fail>
    requires { nesting (meaning sexp.now) ≤ most_lists }
{
    values_are_of_bytes(sexp);
    let alloc = rt.alloc();
    let mut out = Out::new(MemSink::new(Vec::new(alloc), most, Vec::new(alloc)));
    write(sexp, &mut out);
    assert!(rt; !out.failed());
    assert_eq!(rt; out.into_sink().bytes(), want);
    Ok(())
}

#[test]
fn atoms_are_written_as_the_format_says(rt: HostRuntime) -> Result<(), Fail> {
    for (bytes, want) in [
        (b"".as_slice(), b"\"\"".as_slice()),
        (b"a", b"a"),
        (b"Add", b"Add"),
        (b"a b", b"\"a b\""),
        (&[0], b"\"\\000\""),
        (
            b"!$%&'*+,-./09:<=>?@AZ[]^_`az{}~",
            b"!$%&'*+,-./09:<=>?@AZ[]^_`az{}~",
        ),
        (b"#", b"\"#\""),
        (b"|", b"\"|\""),
        (b"a;b", b"\"a;b\""),
        (b"(", b"\"(\""),
        (b"a)", b"\"a)\""),
        (b"say \"x\\y\"", b"\"say \\\"x\\\\y\\\"\""),
        (b"\n\t\r", b"\"\\n\\t\\r\""),
        (&[8, 12, 127, 31, 255], b"\"\\b\\012\\127\\031\\255\""),
        (&[97, 200, 98, 99, 9], b"\"a\\200bc\\t\""),
    ] {
        let atom = Sexp::Atom(Bytes::from_slice(rt.alloc(), bytes)?);
        check(&rt, &atom, 1000, want)?;
        check(&rt, &atom, 1, want)?;
    }
    Ok(())
}

#[test]
fn lists_are_written_as_the_format_says(rt: HostRuntime) -> Result<(), Fail> {
    for (signs, want) in [
        ("0", "()"),
        ("a1", "(a)"),
        ("ab2", "(a b)"),
        ("ab2cd22", "((a b)(c d))"),
        ("000023", "(()()(()()))"),
        ("a0b3", "(a () b)"),
        ("0ab3", "(() a b)"),
        ("#(2", "(\"#\" \"(\")"),
        ("#a;3", "(\"#\" a \";\")"),
        ("A11B12", "(((A))(B))"),
    ] {
        check(&rt, &build(rt.alloc(), signs)?, 1000, want.as_bytes())?;
    }
    Ok(())
}

/// Reads the text, and writes again what was read.
fn reads(rt: &(impl Abort + AllocGlobal), text: &[u8]) -> Result<(), Fail> {
    match read_text(rt.alloc(), text)? {
        Some(sexp) => check(rt, &sexp, 1000, text),
        None => panic!(rt; "refused: {text:?}"),
    }
}

/// So many bytes of one kind, and so many of another.
fn two_runs(alloc: Global, front: u8, back: u8, len: usize) -> Result<Vec<u8>, Fail> {
    let mut bytes = Vec::new(alloc);
    bytes.resize(len, front)?;
    for _ in 0..len {
        bytes.push(back)?;
    }
    Ok(bytes)
}

#[test]
fn written_texts_are_read(rt: HostRuntime) -> Result<(), Fail> {
    for text in [
        "a",
        "Quit",
        "\"a b\"",
        "\"\"",
        "\"\\000\"",
        "\"\\n\\t\\r\\b\\\"\\\\\\255\"",
        "()",
        "(a)",
        "(a b)",
        "((a b)(c d))",
        "(() a ())",
        "(\"#\" \"(\")",
        "(Answer 0 (Added 2 ((bp 0)(ep 21)) NewTip))",
    ] {
        reads(&rt, text.as_bytes())?;
    }
    reads(&rt, &two_runs(rt.alloc(), b'(', b')', 256)?)?;
    reads(&rt, &two_runs(rt.alloc(), b'a', b'z', 600_000)?)?;
    let deeper = two_runs(rt.alloc(), b'(', b')', 257)?;
    assert!(rt; read_text(rt.alloc(), &deeper)?.is_none());
    Ok(())
}

#[test]
fn other_spellings_are_refused(rt: HostRuntime) -> Result<(), Fail> {
    for text in [
        "",
        " ",
        "\n",
        " a",
        "a ",
        "a\n",
        "a b",
        "( a b )",
        "(a b )",
        "( a b)",
        "(a  b)",
        "(a\tb)",
        "(a b);x",
        "(a b) ",
        "\"a\"",
        "(\"a\" b)",
        "(() ())",
        "(a()b)",
        "((a)b)",
        "(a(b))",
        "(\"\"a)",
        "(a\"\")",
        "()()",
        "(a",
        "(a b",
        "\"a",
        ")",
        "a)",
        "#",
        "|",
        ";",
        "a#|",
        "a;b",
        "\"\\x41\"",
        "\"\\065 \"",
        "\"\\010\"",
        "\"\\256\"",
        "\"\\00\"",
        "\"\\q\"",
        "\"\t\"",
        "\"a b\"c",
        "a\\b",
    ] {
        assert!(rt;
            read_text(rt.alloc(), text.as_bytes())?.is_none(),
            "taken: {text}"
        );
    }
    Ok(())
}

/// Writes what a reader gives first of the text: that it may be written is known from the reader's contract.
fn rewrites(rt: &(impl Abort + AllocGlobal), text: &[u8], want: &[u8]) -> Result<(), Fail> {
    let mut reader = Reader::new(rt.alloc())?;
    reader.feed(text)?;
    match reader.next()? {
        Some(Item::Value(sexp, _, _)) => compare(rt, &sexp, 1000, want),
        _ => panic!(rt; "no value: {text:?}"),
    }
}

#[test]
fn what_was_read_may_be_written(rt: HostRuntime) -> Result<(), Fail> {
    for (text, want) in [
        ("a\n", "a"),
        ("\"a\"", "a"),
        ("( a ;x\n b )", "(a b)"),
        ("((a) (\"b c\"d))", "((a)(\"b c\" d))"),
        ("\"\\x41\\065\"", "AA"),
    ] {
        rewrites(&rt, text.as_bytes(), want.as_bytes())?;
    }
    Ok(())
}
