//! Texts and their items, typed from the format, however they are cut.

ghost use Rattle.std.specs.Prelude.{◌≡◌, ◌≤◌, length, false, None, IfOk};
ghost use Rattle.sexp_theory.specs.Items.{next_item};

use crate::{Finish, InputEnd, Item, Reader, Sexp};
use std::alloc::{AllocError, Global};
use std::fmt::Write;
use std::process::Abort;
use std::test::Fail;

/// The most bytes of an item.
const LONGEST: u64 = 1_048_576;

/// A value: an atom in brackets, with the bytes that aren't printed as two hexadecimal digits.
fn show(out: &mut String, sexp: &Sexp) -> Result<(), AllocError> {
    match sexp {
        Sexp::Atom(bytes) => {
            out.push_str("[")?;
            for byte in bytes.as_slice() {
                match byte {
                    b'!'..=b'~' => write!(out, "{}", *byte as char)?,
                    _ => write!(out, "<{byte:02x}>")?,
                }
            }
            out.push_str("]")
        }
        Sexp::List(values) => {
            out.push_str("(")?;
            for value in values {
                show(out, value)?;
            }
            out.push_str(")")
        }
    }
}

fn show_item(out: &mut String, item: &Item) -> Result<(), AllocError> {
    match item {
        Item::Value(sexp, from, to) => {
            show(out, sexp)?;
            write!(out, " {from}-{to}; ")
        }
        Item::Bad(offset, kind) => write!(out, "{kind:?} {offset}; "),
    }
}

fn show_end(out: &mut String, finish: &Finish) -> Result<(), AllocError> {
    if let Some(item) = &finish.last {
        show_item(out, item)?;
    }
    match finish.ended {
        InputEnd::Clean => out.push_str("Clean"),
        InputEnd::Truncated(from) => write!(out, "Truncated {from}"),
    }
}

/// Feeds a piece and shows the items that it ends.
fn show_piece(reader: &mut Reader, out: &mut String, piece: &[u8]) -> Result<(), Fail>
    ensures { IfOk result (λ _. next_item reader.new.limit false reader.new.unread ≡ None) }
{
    if reader.fed() > 1 << 40 || piece.len() > 1 << 40 {
        return Err(Fail::new("too much is fed"));
    }
    reader.feed(piece)?;
    for _ in 0..=piece.len() {
        match reader.next()? {
            Some(item) => show_item(out, &item)?,
            None => return Ok(()),
        }
    }
    Err(Fail::new("more items than bytes"))
}

/// The items of a text that is fed in two pieces, and in pieces of so many bytes.
fn items_in_two(alloc: Global, limit: u64, text: &[u8], cut: usize) -> Result<String, Fail>
    requires { cut ≤ length text.now }
{
    let mut out = String::new(alloc);
    let mut reader = Reader::with_limit(alloc, limit)?;
    show_piece(&mut reader, &mut out, &text[..cut])?;
    show_piece(&mut reader, &mut out, &text[cut..])?;
    show_end(&mut out, &reader.finish()?)?;
    Ok(out)
}

fn items_bytewise(alloc: Global, limit: u64, text: &[u8]) -> Result<String, Fail> {
    let mut out = String::new(alloc);
    let mut reader = Reader::with_limit(alloc, limit)?;
    for byte in text {
        show_piece(&mut reader, &mut out, &[*byte])?;
    }
    show_piece(&mut reader, &mut out, &[])?;
    show_end(&mut out, &reader.finish()?)?;
    Ok(out)
}

/// A text has these items in one piece, in every cut into two pieces and in pieces of one byte.
fn assert_items(
    rt: &(impl Abort + AllocGlobal),
    limit: u64,
    text: &[u8],
    want: &str,
) -> Result<(), Fail> {
    for cut in 0..=text.len() {
        let items = items_in_two(rt.alloc(), limit, text, cut)?;
        assert_eq!(rt; items.as_str(), want, "at {text:?} cut at {cut}");
    }
    let items = items_bytewise(rt.alloc(), limit, text)?;
    assert_eq!(rt; items.as_str(), want, "at {text:?} in bytes");
    Ok(())
}

/// The most bytes of an item, a text, and its items.
const CASES: [(u64, &str, &str); 62] = [
    // atoms and lists
    (LONGEST, "", "Clean"),
    (LONGEST, "\"\"", "[] 0-2; Clean"),
    (LONGEST, "\"\\000\"", "[<00>] 0-6; Clean"),
    (LONGEST, "\"a b\"", "[a<20>b] 0-5; Clean"),
    (LONGEST, "a b\n", "[a] 0-1; [b] 2-3; Clean"),
    (LONGEST, "a\"b\"", "[a] 0-1; [b] 1-4; Clean"),
    (LONGEST, "\"a\"b", "[a] 0-3; [b] 3-4; Clean"),
    (LONGEST, "a(b)", "[a] 0-1; ([b]) 1-4; Clean"),
    (LONGEST, "()()", "() 0-2; () 2-4; Clean"),
    (
        LONGEST,
        "(a(b)\"c\");x\nd",
        "([a]([b])[c]) 0-9; [d] 12-13; Clean",
    ),
    (LONGEST, "(a ; )\n b)", "([a][b]) 0-10; Clean"),
    (LONGEST, "\t\n\u{c}\r a", "[a] 5-6; Clean"),
    (LONGEST, "\u{b}", "[<0b>] 0-1; Clean"),
    (LONGEST, "a\0b", "[a<00>b] 0-3; Clean"),
    (LONGEST, "\u{e9}", "[<c3><a9>] 0-2; Clean"),
    (LONGEST, "\"a\nb\"", "[a<0a>b] 0-5; Clean"),
    (
        LONGEST,
        "\"\\n\\t\\r\\b\\\"\\\\\\065\\x41\\xfF\"",
        "[<0a><09><0d><08>\"\\AA<ff>] 0-26; Clean",
    ),
    (
        LONGEST,
        "(Quit)\n(q Quit)\n",
        "([Quit]) 0-6; ([q][Quit]) 7-15; Clean",
    ),
    // bad places, just outside and just inside
    (LONGEST, ")", "StrayClose 0; Clean"),
    (LONGEST, ")\n\"\\q\"\n", "StrayClose 0; BadEscape 3; Clean"),
    (LONGEST, ") a\nb", "StrayClose 0; [b] 4-5; Clean"),
    (LONGEST, "())x\n(", "() 0-2; StrayClose 2; Truncated 5"),
    (LONGEST, ";)\n)", "StrayClose 3; Clean"),
    (LONGEST, "\"\\255\"", "[<ff>] 0-6; Clean"),
    (LONGEST, "\"\\256\"", "BadEscape 1; Clean"),
    (LONGEST, "\"\\26", "BadEscape 1; Clean"),
    (LONGEST, "\"\\25", "Truncated 0"),
    (LONGEST, "\"\\3", "BadEscape 1; Clean"),
    (LONGEST, "\"\\2x", "BadEscape 1; Clean"),
    (LONGEST, "\"\\x4g\"", "BadEscape 1; Clean"),
    (LONGEST, "\"\\xg", "BadEscape 1; Clean"),
    (LONGEST, "\"\\X41\"", "BadEscape 1; Clean"),
    (LONGEST, "\"\\\na\n", "BadEscape 1; [a] 3-4; Clean"),
    (LONGEST, "\"\\x4\nb ", "BadEscape 1; [b] 5-6; Clean"),
    (LONGEST, "a#|b\nc ", "HashBar 1; [c] 5-6; Clean"),
    (LONGEST, "#;c\nd ", "HashBar 0; [d] 4-5; Clean"),
    (LONGEST, "(a ##|)", "HashBar 4; Clean"),
    (LONGEST, "(#;\n)", "HashBar 1; StrayClose 4; Clean"),
    (
        LONGEST,
        "|# #a \"#|\" ;#|\n",
        "[|#] 0-2; [#a] 3-5; [#|] 6-10; Clean",
    ),
    // ends
    (LONGEST, " ;c", "Clean"),
    (LONGEST, ")x", "StrayClose 0; Clean"),
    (LONGEST, "(a ;c", "Truncated 0"),
    (LONGEST, "\"a", "Truncated 0"),
    (LONGEST, "b (", "[b] 0-1; Truncated 2"),
    (LONGEST, "(a", "Truncated 0"),
    (LONGEST, "a", "[a] 0-1; Clean"),
    (LONGEST, " a#", "[a#] 1-3; Clean"),
    // an item of at most four bytes
    (4, "abcd ", "[abcd] 0-4; Clean"),
    (4, "abcd", "[abcd] 0-4; Clean"),
    (4, "abcd(", "[abcd] 0-4; Truncated 4"),
    (4, "abcde\n f", "TooLong 4; [f] 7-8; Clean"),
    (4, "(ab)c ", "([ab]) 0-4; [c] 4-5; Clean"),
    (4, " (abc)", "TooLong 5; Clean"),
    (4, "(a;b", "Truncated 0"),
    (4, "(a;b\n", "TooLong 4; Clean"),
    (4, "\"ab\"", "[ab] 0-4; Clean"),
    (4, "\"ab\\q", "TooLong 4; Clean"),
    (4, "\"a\\q", "BadEscape 2; Clean"),
    (4, "abc#;", "HashBar 3; Clean"),
    (4, "abc#|", "TooLong 4; Clean"),
    (4, "ab#|", "HashBar 2; Clean"),
    (4, "(ab#;", "TooLong 4; Clean"),
];

#[test]
fn a_text_has_its_items_however_it_is_cut(rt: HostRuntime) -> Result<(), Fail> {
    for (limit, text, want) in CASES {
        assert_items(&rt, limit, text.as_bytes(), want)?;
    }
    Ok(())
}

#[test]
fn at_most_256_lists_stand_inside_one_another(rt: HostRuntime) -> Result<(), Fail> {
    for (lists, want) in [(256, " 0-512; Clean"), (257, "TooDeep 256; Clean")] {
        let mut text = vec![in rt.alloc(); b'('; lists]?;
        for _ in 0..lists {
            text.push(b')')?;
        }
        let items = items_in_two(rt.alloc(), LONGEST, &text, 0)?;
        assert!(rt; items.as_str().ends_with(want), "{items}");
    }
    Ok(())
}

#[test]
fn an_item_has_at_most_1_048_576_bytes(rt: HostRuntime) -> Result<(), Fail> {
    let longest = vec![in rt.alloc(); b'a'; 1_048_576]?;
    for (behind, want) in [
        (" ", "a] 0-1048576; Clean"),
        ("a ", "TooLong 1048576; Clean"),
    ] {
        let mut text = longest.clone()?;
        text.extend_from_slice(behind.as_bytes())?;
        let items = items_bytewise(rt.alloc(), LONGEST, &text)?;
        assert!(rt; items.as_str().ends_with(want));
    }
    Ok(())
}
