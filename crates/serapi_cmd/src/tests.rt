//! Values with what they are read as. The values are spelled by plain atoms, spaces and parentheses, with `~` for
//! the empty atom.

use crate::*;
use base_core::{Bytes, NoMemory};
use sexp_core::{BadKind, Sexp};
use std::alloc::{AllocError, Global};
use std::fmt::Write;
use std::mem;
use std::test::Fail;

const MOST: u64 = 18446744073709551615;

const TAGS: [(&str, u64, &str); 35] = [
    ("Join", 0, "0 Join"),
    ("Quit", 12, "12 Quit"),
    ("Quit", MOST, "18446744073709551615 Quit"),
    ("(Exec 2)", 7, "7 Exec 2"),
    ("(q Quit)", 3, "q Quit"),
    ("(q Join)", 3, "q Join"),
    ("(~ Quit)", 3, " Quit"),
    ("(Goals (Exec 2))", 0, "Goals Exec 2"),
    ("(q (Exec x))", 0, "BadNumber"),
    ("(q (Exec))", 0, "BadField Exec"),
    ("(Quit)", 0, "BadField Quit"),
    ("(Join)", 0, "BadField Join"),
    ("(Quit Quit)", 0, "BadField Quit"),
    ("(Join Quit)", 0, "BadField Join"),
    ("(Quit 1 2)", 0, "BadField Quit"),
    ("(q (Quit))", 0, "BadField Quit"),
    ("(Add Quit)", 0, "BadField Add"),
    ("(Exec (Quit))", 0, "BadNumber"),
    ("(Cancel Quit)", 0, "BadField ids"),
    ("(q (r Quit))", 0, "UnknownCommand"),
    ("(a (b Quit))", 0, "UnknownCommand"),
    ("(q Quit Quit)", 0, "UnknownCommand"),
    ("((q) Quit)", 0, "UnknownCommand"),
    ("((Exec 2) Quit)", 0, "UnknownCommand"),
    ("(q)", 0, "UnknownCommand"),
    ("(q q)", 0, "UnknownCommand"),
    ("(q Add)", 0, "UnknownCommand"),
    ("(q ())", 0, "UnknownCommand"),
    ("()", 0, "UnknownCommand"),
    ("(())", 0, "UnknownCommand"),
    ("((Exec 2))", 0, "UnknownCommand"),
    ("~", 0, "UnknownCommand"),
    ("Add", 0, "UnknownCommand"),
    ("quit", 0, "UnknownCommand"),
    ("Quits", 0, "UnknownCommand"),
];

const NUMBERS: [(&str, u64, &str); 26] = [
    ("(Exec 0)", 0, "0 Exec 0"),
    ("(Exec 007)", 0, "0 Exec 7"),
    ("(Exec 0123456789)", 0, "0 Exec 123456789"),
    (
        "(Exec 18446744073709551615)",
        0,
        "0 Exec 18446744073709551615",
    ),
    (
        "(Exec 00018446744073709551615)",
        0,
        "0 Exec 18446744073709551615",
    ),
    ("(Exec 18446744073709551616)", 0, "BadNumber"),
    ("(Exec 18446744073709551620)", 0, "BadNumber"),
    ("(Exec 184467440737095516150)", 0, "BadNumber"),
    ("(Exec ~)", 0, "BadNumber"),
    ("(Exec -1)", 0, "BadNumber"),
    ("(Exec +1)", 0, "BadNumber"),
    ("(Exec 1/)", 0, "BadNumber"),
    ("(Exec 1:)", 0, "BadNumber"),
    ("(Exec 0x1)", 0, "BadNumber"),
    ("(Exec a)", 0, "BadNumber"),
    ("(Exec (1))", 0, "BadNumber"),
    ("(Exec)", 0, "BadField Exec"),
    ("(Exec 1 2)", 0, "BadField Exec"),
    ("(Cancel ())", 0, "0 Cancel"),
    ("(Cancel (5 5 1 99))", 0, "0 Cancel 5 5 1 99"),
    ("(Cancel (1 x 2))", 0, "BadNumber"),
    ("(Cancel ((1)))", 0, "BadNumber"),
    ("(Cancel 1)", 0, "BadField ids"),
    ("(Cancel ~)", 0, "BadField ids"),
    ("(Cancel)", 0, "BadField Cancel"),
    ("(Cancel (1) (2))", 0, "BadField Cancel"),
];

const ADDS: [(&str, u64, &str); 37] = [
    ("(Add () t)", 0, "0 Add None None false t"),
    ("(Add () ~)", 0, "0 Add None None false "),
    ("(q (Add () t))", 0, "q Add None None false t"),
    ("(Add ((ontop 4)) t)", 0, "0 Add Some(4) None false t"),
    ("(Add ((lim 4)) t)", 0, "0 Add None Some(4) false t"),
    ("(Add ((verb true)) t)", 0, "0 Add None None true t"),
    ("(Add ((verb false)) t)", 0, "0 Add None None false t"),
    (
        "(Add ((verb true)(lim 02)(ontop 1)) t)",
        0,
        "0 Add Some(1) Some(2) true t",
    ),
    ("(Add)", 0, "BadField Add"),
    ("(Add ())", 0, "BadField Add"),
    ("(Add x)", 0, "BadField Add"),
    ("(Add () t t)", 0, "BadField Add"),
    ("(Add x t)", 0, "BadField opts"),
    ("(Add ~ t)", 0, "BadField opts"),
    ("(Add (lim 1) t)", 0, "BadField opts"),
    ("(Add (()) t)", 0, "BadField opts"),
    ("(Add ((lim)) t)", 0, "BadField opts"),
    ("(Add ((lim 1 2)) t)", 0, "BadField opts"),
    ("(Add (((lim) 1)) t)", 0, "BadField opts"),
    ("(Add ((lim 1) x) (t))", 0, "BadField opts"),
    ("(Add ((foo 1)) t)", 0, "BadField foo"),
    ("(Add ((~ 1)) t)", 0, "BadField "),
    ("(Add ((sid 1)) t)", 0, "BadField sid"),
    ("(Add ((Lim 1)) t)", 0, "BadField Lim"),
    ("(Add ((foo 1) x) t)", 0, "BadField foo"),
    ("(Add ((foo 1)(lim x)) t)", 0, "BadField foo"),
    ("(Add ((lim x)(foo 1)) t)", 0, "BadNumber"),
    ("(Add ((lim x)(lim 1)) t)", 0, "BadNumber"),
    ("(Add ((lim 1)(lim x)) t)", 0, "BadField lim"),
    ("(Add ((lim 1)(ontop 1)(lim 1)) t)", 0, "BadField lim"),
    ("(Add ((ontop 1)(ontop 2)) t)", 0, "BadField ontop"),
    ("(Add ((verb false)(verb true)) t)", 0, "BadField verb"),
    ("(Add ((ontop x)) t)", 0, "BadNumber"),
    ("(Add ((verb True)) t)", 0, "BadField verb"),
    ("(Add ((verb (true))) t)", 0, "BadField verb"),
    ("(Add () (t))", 0, "BadField text"),
    ("(Add ((lim x)) (t))", 0, "BadNumber"),
];

const QUERIES: [(&str, u64, &str); 39] = [
    ("(Query () Goals)", 0, "0 Query None Goals"),
    ("(Query () Ast)", 0, "0 Query None Ast"),
    ("(Query () Env)", 0, "0 Query None Env"),
    ("(Query () (Definition a))", 0, "0 Query None Definition a"),
    ("(Query () (Definition ~))", 0, "0 Query None Definition "),
    ("(Query ((sid 7)) Env)", 0, "0 Query Some(7) Env"),
    ("(Query ((pp ())) Env)", 0, "0 Query None Env"),
    (
        "(Query ((sid 7)(pp ((pp_format PpStr)))) Ast)",
        0,
        "0 Query Some(7) Ast",
    ),
    ("(Query ((pp ())(sid 7)) Ast)", 0, "0 Query Some(7) Ast"),
    ("(Query)", 0, "BadField Query"),
    ("(Query ())", 0, "BadField Query"),
    ("(Query () Env Env)", 0, "BadField Query"),
    ("(Query x Env)", 0, "BadField opts"),
    ("(Query (sid 7) Env)", 0, "BadField opts"),
    ("(Query ((sid)) Env)", 0, "BadField opts"),
    ("(Query ((pp () ())) Env)", 0, "BadField opts"),
    ("(Query ((sid x)) Env)", 0, "BadNumber"),
    ("(Query ((sid 7)(sid 7)) Env)", 0, "BadField sid"),
    ("(Query ((pp ())(pp ())) Env)", 0, "BadField pp"),
    ("(Query ((lim 7)) Env)", 0, "BadField lim"),
    ("(Query ((pp x)) Env)", 0, "BadField pp"),
    ("(Query ((pp ~)) Env)", 0, "BadField pp"),
    ("(Query ((pp (x))) Env)", 0, "BadField pp"),
    ("(Query ((pp (()))) Env)", 0, "BadField pp"),
    ("(Query ((pp (pp_format PpStr))) Env)", 0, "BadField pp"),
    ("(Query ((pp ((pp_format PpSer)))) Env)", 0, "BadField pp"),
    ("(Query ((pp ((pp_formats PpStr)))) Env)", 0, "BadField pp"),
    ("(Query ((pp ((pp_format (PpStr))))) Env)", 0, "BadField pp"),
    (
        "(Query ((pp ((pp_format PpStr)(pp_format PpStr)))) Env)",
        0,
        "BadField pp",
    ),
    ("(Query ((pp x)(foo 1)) Env)", 0, "BadField pp"),
    ("(Query ((foo 1)(pp x)) x)", 0, "BadField foo"),
    ("(Query () goals)", 0, "BadField kind"),
    ("(Query () ~)", 0, "BadField kind"),
    ("(Query () Definition)", 0, "BadField kind"),
    ("(Query () (Definition))", 0, "BadField kind"),
    ("(Query () (Definition (a)))", 0, "BadField kind"),
    ("(Query () (Definition a b))", 0, "BadField kind"),
    ("(Query () (Env a))", 0, "BadField kind"),
    ("(Query () (Env))", 0, "BadField kind"),
];

/// The last value that a text spells, or the empty atom.
fn value_of(alloc: Global, text: &str) -> Result<Sexp, NoMemory> {
    let mut open: Vec<Vec<Sexp>> = Vec::new(alloc);
    let mut values: Vec<Sexp> = Vec::new(alloc);
    let mut atom: Vec<u8> = Vec::new(alloc);
    for byte in text.as_bytes() {
        if matches!(byte, b'~' | b' ' | b'(' | b')') {
            if *byte == b'~' || !atom.is_empty() {
                let bytes = mem::replace(&mut atom, Vec::new(alloc));
                values.push(Sexp::Atom(Bytes::from_vec(bytes)))?;
            }
        } else {
            atom.push(*byte)?;
        }
        if *byte == b'(' {
            open.push(mem::replace(&mut values, Vec::new(alloc)))?;
        }
        if *byte == b')' {
            let outer = open.pop().unwrap_or(Vec::new(alloc));
            let list = mem::replace(&mut values, outer);
            values.push(Sexp::List(list))?;
        }
    }
    Ok(values.pop().unwrap_or(Sexp::Atom(Bytes::from_vec(atom))))
}

fn push_bytes(alloc: Global, text: &mut String, bytes: &[u8]) -> Result<(), AllocError> {
    let shown = String::from_utf8_lossy(alloc, bytes)?;
    text.push_str(shown.as_str())
}

fn push_command(alloc: Global, text: &mut String, command: &Command) -> Result<(), AllocError> {
    match command {
        Command::Add(options, bytes) => {
            let ontop = options.ontop;
            let lim = options.lim;
            let verb = options.verb;
            write!(text, " Add {ontop:?} {lim:?} {verb} ")?;
            push_bytes(alloc, text, bytes.as_slice())
        }
        Command::Cancel(ids) => {
            text.push_str(" Cancel")?;
            for id in ids.as_slice() {
                write!(text, " {id}")?;
            }
            Ok(())
        }
        Command::Exec(id) => write!(text, " Exec {id}"),
        Command::Query(options, kind) => {
            let sid = options.sid;
            write!(text, " Query {sid:?} ")?;
            match kind {
                QueryKind::Goals => text.push_str("Goals"),
                QueryKind::Ast => text.push_str("Ast"),
                QueryKind::Env => text.push_str("Env"),
                QueryKind::Definition(name) => {
                    text.push_str("Definition ")?;
                    push_bytes(alloc, text, name.as_slice())
                }
            }
        }
        Command::Join => text.push_str(" Join"),
        Command::Quit => text.push_str(" Quit"),
    }
}

fn told(alloc: Global, read: &Result<Tagged, CmdFault>) -> Result<String, AllocError> {
    let mut text = String::new(alloc);
    match read {
        Ok(tagged) => {
            push_bytes(alloc, &mut text, tagged.tag.as_slice())?;
            push_command(alloc, &mut text, &tagged.command)?;
        }
        Err(CmdFault::UnknownCommand) => text.push_str("UnknownCommand")?,
        Err(CmdFault::BadField(name)) => {
            text.push_str("BadField ")?;
            push_bytes(alloc, &mut text, name.as_slice())?;
        }
        Err(CmdFault::BadNumber) => text.push_str("BadNumber")?,
        Err(CmdFault::NoMemory) => text.push_str("NoMemory")?,
    }
    Ok(text)
}

fn told_request(alloc: Global, request: &Request) -> Result<String, AllocError> {
    let mut text = String::new(alloc);
    match request {
        Request::Do(tagged) => {
            push_bytes(alloc, &mut text, tagged.tag.as_slice())?;
            push_command(alloc, &mut text, &tagged.command)?;
        }
        Request::Bad(line) => {
            let number = line.number;
            write!(text, "BadInput {number} ")?;
            match &line.kind {
                InputFault::StrayClose => text.push_str("StrayClose")?,
                InputFault::BadEscape => text.push_str("BadEscape")?,
                InputFault::TooDeep => text.push_str("TooDeep")?,
                InputFault::TooLong => text.push_str("TooLong")?,
                InputFault::HashBar => text.push_str("HashBar")?,
                InputFault::UnknownCommand => text.push_str("UnknownCommand")?,
                InputFault::BadField(name) => {
                    text.push_str("BadField ")?;
                    push_bytes(alloc, &mut text, name.as_slice())?;
                }
                InputFault::BadNumber => text.push_str("BadNumber")?,
            }
            let offset = line.offset;
            write!(text, " {offset}")?;
        }
    }
    Ok(text)
}

#[test]
fn each_value_is_read_by_the_tables(rt: HostRuntime) -> Result<(), Fail> {
    for table in [TAGS.as_slice(), &NUMBERS, &ADDS, &QUERIES] {
        for (text, number, expected) in table {
            let value = value_of(rt.alloc(), text)?;
            let read = read_command(rt.alloc(), &value, *number);
            let told = told(rt.alloc(), &read)?;
            assert_eq!(rt; told.as_str(), *expected, "at {text:?}");
        }
    }
    Ok(())
}

#[test]
fn an_item_is_a_request_with_its_number(rt: HostRuntime) -> Result<(), Fail> {
    let values = [
        ("(Quit)", 0, 0, "BadInput 0 BadField Quit 0", false),
        ("(q Quit)", 1, 7, "q Quit", true),
        ("(a (b Quit))", 0, 0, "BadInput 0 UnknownCommand 0", false),
        ("(Exec x)", 4, 99, "BadInput 4 BadNumber 99", false),
        ("Join", 4, 99, "4 Join", false),
        ("Quit", 4, 99, "4 Quit", true),
    ];
    for (text, number, first, expected, quits) in values {
        let value = value_of(rt.alloc(), text)?;
        let request = request_of_value(rt.alloc(), &value, number, first)?;
        let told = told_request(rt.alloc(), &request)?;
        assert_eq!(rt; told.as_str(), expected, "at {text:?}");
        assert_eq!(rt; request.is_quit(), quits, "at {text:?}");
    }
    let bad_places = [
        (BadKind::StrayClose, 0, 0, "BadInput 0 StrayClose 0"),
        (BadKind::BadEscape, 1, 3, "BadInput 1 BadEscape 3"),
        (BadKind::TooDeep, 2, 256, "BadInput 2 TooDeep 256"),
        (BadKind::TooLong, 3, 1048576, "BadInput 3 TooLong 1048576"),
        (BadKind::HashBar, 4, 9, "BadInput 4 HashBar 9"),
    ];
    for (kind, number, offset, expected) in bad_places {
        let request = request_of_bad_place(kind, number, offset);
        let told = told_request(rt.alloc(), &request)?;
        assert_eq!(rt; told.as_str(), expected);
        assert_eq!(rt; request.is_quit(), false);
    }
    Ok(())
}
