//! What no clause says: texts typed by hand from the rules of printing, long ones, and each call with ample memory.

use crate::{show, show_term};
use base_core::NoMemory;
use std::alloc::Global;
use std::sync::{Arc, ArcSlice};
use std::test::Fail;
use term_core::{Formula, Name, Names, Term, Terms};

fn name(alloc: Global, text: &str) -> Result<Name, NoMemory> {
    Name::from_slice(alloc, text.as_bytes())
}

/// The names of a text, with a space between two.
fn names(alloc: Global, text: &str) -> Result<Names, NoMemory> {
    let mut all = Vec::new(alloc);
    for word in text.split_whitespace() {
        all.push(name(alloc, word)?)?;
    }
    Ok(all)
}

/// A function of one term.
fn apply(alloc: Global, function: &str, t: Term) -> Result<Term, NoMemory> {
    let name = name(alloc, function)?;
    Ok(Term::App(name, ArcSlice::from_vec(vec![in alloc; t]?)?))
}

fn share(alloc: Global, a: Formula) -> Result<Arc<Formula>, NoMemory> {
    Ok(Arc::new(alloc, a)?)
}

fn predicate(alloc: Global, text: &str, arguments: Terms) -> Result<Formula, NoMemory> {
    Ok(Formula::Pred(name(alloc, text)?, arguments))
}

/// The predicate `P` of a term.
fn p(alloc: Global, t: Term) -> Result<Formula, NoMemory> {
    predicate(alloc, "P", ArcSlice::from_vec(vec![in alloc; t]?)?)
}

fn equation(alloc: Global, t: Term, u: Term) -> Result<Formula, NoMemory> {
    Ok(Formula::Eq(name(alloc, "T")?, t, u))
}

/// A digit is `P` of that variable, `d` is `P (f 0)`, `r` is `R (f 0) 1`, `=` is `f 0 = 0`, `e` is `1 = 0`, `g` is
/// `2 = 1`, and `A` and `B` are predicates without arguments.
fn leaf(alloc: Global, sign: u8) -> Result<Formula, NoMemory> {
    match sign {
        b'0'..=b'9' => p(alloc, Term::Var(u64::from(sign - b'0'))),
        b'd' => p(alloc, apply(alloc, "f", Term::Var(0))?),
        b'r' => {
            let t = apply(alloc, "f", Term::Var(0))?;
            predicate(
                alloc,
                "R",
                ArcSlice::from_vec(vec![in alloc; t, Term::Var(1)]?)?,
            )
        }
        b'=' => equation(alloc, apply(alloc, "f", Term::Var(0))?, Term::Var(0)),
        b'e' => equation(alloc, Term::Var(1), Term::Var(0)),
        b'g' => equation(alloc, Term::Var(2), Term::Var(1)),
        b'A' => predicate(alloc, "A", ArcSlice::from_vec(Vec::new(alloc))?),
        b'B' => predicate(alloc, "B", ArcSlice::from_vec(Vec::new(alloc))?),
        b'F' => Ok(Formula::False),
        _ => Ok(Formula::True),
    }
}

/// `x` and `y` bind a variable with that name of the sort `T`, `o` one that is to be printed as `x0`, and `E` is an
/// `exists` with the name `x`.
fn bind(alloc: Global, sign: u8, a: Arc<Formula>) -> Result<Arc<Formula>, NoMemory> {
    let sort = name(alloc, "T")?;
    let bound = match sign {
        b'y' => name(alloc, "y")?,
        b'o' => name(alloc, "x0")?,
        _ => name(alloc, "x")?,
    };
    share(
        alloc,
        match sign {
            b'E' => Formula::Ex(sort, bound, a),
            _ => Formula::All(sort, bound, a),
        },
    )
}

fn pair(sign: u8, a: Arc<Formula>, b: Arc<Formula>) -> Formula {
    match sign {
        b'&' => Formula::And(a, b),
        b'|' => Formula::Or(a, b),
        _ => Formula::Imp(a, b),
    }
}

/// The last formula that was read.
fn last(alloc: Global, stack: &mut Vec<Arc<Formula>>) -> Result<Arc<Formula>, NoMemory> {
    match stack.pop() {
        Some(a) => Ok(a),
        None => share(alloc, Formula::True),
    }
}

/// The formula with one sign more behind those that were read.
fn take_sign(
    alloc: Global,
    sign: u8,
    stack: &mut Vec<Arc<Formula>>,
) -> Result<Arc<Formula>, NoMemory> {
    match sign {
        b'&' | b'|' | b'>' => {
            let b = last(alloc, stack)?;
            let a = last(alloc, stack)?;
            share(alloc, pair(sign, a, b))
        }
        b'x' | b'y' | b'o' | b'E' => bind(alloc, sign, last(alloc, stack)?),
        _ => share(alloc, leaf(alloc, sign)?),
    }
}

/// A formula written with each sign behind its parts.
fn read(alloc: Global, text: &[u8]) -> Result<Arc<Formula>, NoMemory> {
    let mut stack: Vec<Arc<Formula>> = Vec::new(alloc);
    for sign in text {
        let a = take_sign(alloc, *sign, &mut stack)?;
        stack.push(a)?;
    }
    last(alloc, &mut stack)
}

/// Whether a formula has a text, with one list of names outside and one of names that are taken.
fn is_shown(
    alloc: Global,
    formula: &[u8],
    outside: &str,
    taken: &str,
    want: &str,
) -> Result<bool, NoMemory> {
    let a = read(alloc, formula)?;
    let text = show(&a, &names(alloc, outside)?, &names(alloc, taken)?)?;
    Ok(text.as_slice() == want.as_bytes())
}

#[test]
fn shows_formulas(rt: HostRuntime) -> Result<(), Fail> {
    for (formula, outside, taken, want) in [
        (
            b"0xABA|&>".as_slice(),
            "",
            "",
            "(forall x : T, P x) -> A /\\ (B \\/ A)",
        ),
        (
            b"0xAF>BAF>|&>",
            "",
            "",
            "(forall x : T, P x) -> (A -> False) /\\ (B \\/ (A -> False))",
        ),
        (b"AB>AB>>", "", "", "(A -> B) -> A -> B"),
        (b"AB&A&ABA&&|", "", "", "(A /\\ B) /\\ A \\/ A /\\ B /\\ A"),
        (b"A0E>", "", "", "A -> (exists x : T, P x)"),
        (b"=AT>>x", "", "", "forall x : T, f x = x -> A -> True"),
        (b"r", "y z", "A", "R (f y) z"),
        (b"dx", "y", "f", "forall x : T, P (f x)"),
        (
            b"goxx",
            "",
            "",
            "forall x : T, forall x0 : T, forall x00 : T, x = x0",
        ),
        (b"gyx", "y", "x x0", "forall x1 : T, forall y0 : T, y = x1"),
        (b"0x", "", "x2 x x0", "forall x1 : T, P x1"),
        (b"1x", "x", "", "forall x0 : T, P x"),
        (
            b"exx0x&",
            "",
            "x",
            "(forall x0 : T, forall x1 : T, x0 = x1) /\\ (forall x0 : T, P x0)",
        ),
    ] {
        assert!(rt;
            is_shown(rt.alloc(), formula, outside, taken, want)?,
            "{want}"
        );
    }
    Ok(())
}

/// `forall x` so many times and once more round `A`.
fn nested(alloc: Global, more: u64) -> Result<Arc<Formula>, NoMemory> {
    let mut a = read(alloc, b"Ax")?;
    for _ in 0..more {
        a = bind(alloc, b'x', a)?;
    }
    Ok(a)
}

/// The text of that, where so many names with a number are taken, and then `x` itself.
fn nested_text(alloc: Global, taken: u64, more: u64) -> Result<Vec<u8>, NoMemory> {
    let mut text = Vec::new(alloc);
    if taken == 0 {
        text.extend_from_slice(b"forall x : T, ")?;
    }
    for k in taken..more {
        let binder = format!(in alloc; "forall x{k} : T, ")?;
        text.extend_from_slice(binder.as_bytes())?;
    }
    text.push(b'A')?;
    Ok(text)
}

/// `x` and then `x0`, `x1` and so on, so many of them.
fn numbered(alloc: Global, count: u64) -> Result<Names, NoMemory> {
    let mut all = names(alloc, "x")?;
    for k in 0..count {
        let text = format!(in alloc; "x{k}")?;
        all.push(name(alloc, text.as_str())?)?;
    }
    Ok(all)
}

/// Whether binders of one name within one another have the numbers from 300 on, where the lower ones are taken.
fn are_numbered(alloc: Global) -> Result<bool, NoMemory> {
    let a = nested(alloc, 9)?;
    let text = show(&a, &names(alloc, "y")?, &numbered(alloc, 300)?)?;
    Ok(text.as_slice() == nested_text(alloc, 300, 310)?.as_slice())
}

/// Whether so many binders more of one name have their numbers from 0 on.
fn are_nested(alloc: Global, more: u64) -> Result<bool, NoMemory> {
    let a = nested(alloc, more)?;
    let text = show(&a, &names(alloc, "y")?, &names(alloc, "z")?)?;
    Ok(text.as_slice() == nested_text(alloc, 0, more)?.as_slice())
}

/// `f` so many times of a variable.
fn tower(alloc: Global, count: u64) -> Result<Term, NoMemory> {
    let mut t = Term::Var(0);
    for _ in 0..count {
        t = apply(alloc, "f", t)?;
    }
    Ok(t)
}

/// Whether `f (f (.. (f (f x))))` has a `(` before each `f` but the first.
fn is_tower(alloc: Global, more: u64) -> Result<bool, NoMemory> {
    let mut want = Vec::new(alloc);
    for _ in 0..more {
        want.extend_from_slice(b"f (")?;
    }
    want.extend_from_slice(b"f x")?;
    for _ in 0..more {
        want.push(b')')?;
    }
    let t = apply(alloc, "f", tower(alloc, more)?)?;
    let text = show_term(&t, &names(alloc, "x")?, &names(alloc, "f")?)?;
    Ok(text.as_slice() == want.as_slice())
}

/// Whether `P` of 65,535 variables is written with each of them.
fn is_wide(alloc: Global) -> Result<bool, NoMemory> {
    let mut want = Vec::new(alloc);
    want.push(b'P')?;
    let mut arguments = Vec::new(alloc);
    for _ in 0..65_535 {
        want.extend_from_slice(b" x")?;
        arguments.push(Term::Var(0))?;
    }
    let a = share(
        alloc,
        predicate(alloc, "P", ArcSlice::from_vec(arguments)?)?,
    )?;
    let text = show(&a, &names(alloc, "x")?, &names(alloc, "P")?)?;
    Ok(text.as_slice() == want.as_slice())
}

#[test]
fn shows_long_texts(rt: HostRuntime) -> Result<(), Fail> {
    assert!(rt; are_numbered(rt.alloc())?);
    assert!(rt; are_nested(rt.alloc(), 300)?);
    assert!(rt; are_nested(rt.alloc(), 1_022)?);
    assert!(rt; is_tower(rt.alloc(), 256)?);
    assert!(rt; is_tower(rt.alloc(), 257)?);
    assert!(rt; is_wide(rt.alloc())?);
    Ok(())
}
