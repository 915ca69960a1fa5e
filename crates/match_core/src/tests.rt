//! What no clause says: small patterns, goals and terms typed by hand, and each call with ample memory.
use super::*;
use base_core::NoMemory;
use std::alloc::Global;
use std::sync::{Arc, ArcSlice};
use std::test::Fail;
use term_core::{Formula, Name, Term};

fn name(alloc: Global, text: &[u8]) -> Result<Name, NoMemory> {
    Name::from_slice(alloc, text)
}

/// What was read and not yet used.
#[derive(Drop)]
struct Stack {
    terms: Vec<Term>,
    formulas: Vec<Arc<Formula>>,
}

/// The last term, or the variable 9.
fn term(stack: &mut Stack) -> Term {
    match stack.terms.pop() {
        Some(t) => t,
        None => Term::Var(9),
    }
}

/// The last formula, or True.
fn formula(alloc: Global, stack: &mut Stack) -> Result<Arc<Formula>, NoMemory> {
    match stack.formulas.pop() {
        Some(a) => Ok(a),
        None => Ok(Arc::new(alloc, Formula::True)?),
    }
}

/// One term that stands before a sign, or two.
fn arguments(alloc: Global, stack: &mut Stack, two: bool) -> Result<Vec<Term>, NoMemory> {
    let last = term(stack);
    if two {
        let first = term(stack);
        Ok(vec![in alloc; first, last]?)
    } else {
        Ok(vec![in alloc; last]?)
    }
}

/// Takes a sign of a term: a digit is a variable, `k` a constant, `f` a function of the last term, `g` of the last two.
fn take_term(alloc: Global, sign: u8, stack: &mut Stack) -> Result<Term, NoMemory> {
    match sign {
        b'0'..=b'9' => Ok(Term::Var(u64::from(sign - b'0'))),
        b'k' => Ok(Term::App(name(alloc, b"k")?, ArcSlice::from_vec(Vec::new(alloc))?)),
        _ => {
            let ts = arguments(alloc, stack, sign == b'g')?;
            Ok(Term::App(name(alloc, &[sign])?, ArcSlice::from_vec(ts)?))
        }
    }
}

/// `A`, `B` and `C` are quantifiers over the last formula, `B` with another name to print and `C` of another sort; `E`
/// is an existential one.
fn bind(alloc: Global, sign: u8, a: Arc<Formula>) -> Result<Formula, NoMemory> {
    let sort = name(alloc, if sign == b'C' { b"set" } else { b"nat" })?;
    let printed = name(alloc, if sign == b'B' { b"y" } else { b"x" })?;
    if sign == b'E' {
        Ok(Formula::Ex(sort, printed, a))
    } else {
        Ok(Formula::All(sort, printed, a))
    }
}

/// Two formulas with a connective.
fn join(sign: u8, a: Arc<Formula>, b: Arc<Formula>) -> Formula {
    match sign {
        b'&' => Formula::And(a, b),
        b'|' => Formula::Or(a, b),
        _ => Formula::Imp(a, b),
    }
}

/// An equation of the last two terms, at one sort or at another.
fn equation(alloc: Global, sort: &[u8], stack: &mut Stack) -> Result<Formula, NoMemory> {
    let right = term(stack);
    let left = term(stack);
    Ok(Formula::Eq(name(alloc, sort)?, left, right))
}

/// Takes a sign of a formula: `P` is a predicate of the last term, `D` the same one of the last two, `Q` another of the
/// last.
fn take_formula(alloc: Global, sign: u8, stack: &mut Stack) -> Result<Formula, NoMemory> {
    match sign {
        b'P' | b'D' | b'Q' => {
            let ts = arguments(alloc, stack, sign == b'D')?;
            let predicate = name(alloc, if sign == b'Q' { b"Q" } else { b"P" })?;
            Ok(Formula::Pred(predicate, ArcSlice::from_vec(ts)?))
        }
        b'=' => equation(alloc, b"nat", stack),
        b'~' => equation(alloc, b"set", stack),
        b'A' | b'B' | b'C' | b'E' => bind(alloc, sign, formula(alloc, stack)?),
        b'&' | b'|' | b'>' => {
            let b = formula(alloc, stack)?;
            let a = formula(alloc, stack)?;
            Ok(join(sign, a, b))
        }
        b'F' => Ok(Formula::False),
        _ => Ok(Formula::True),
    }
}

/// Terms and formulas written with each sign behind its parts.
fn read(alloc: Global, text: &[u8]) -> Result<Stack, NoMemory> {
    let mut stack = Stack {
        terms: Vec::new(alloc),
        formulas: Vec::new(alloc),
    };
    for sign in text {
        match *sign {
            b'0'..=b'9' | b'f' | b'g' | b'k' => {
                let t = take_term(alloc, *sign, &mut stack)?;
                stack.terms.push(t)?;
            }
            _ => {
                let a = take_formula(alloc, *sign, &mut stack)?;
                stack.formulas.push(Arc::new(alloc, a)?)?;
            }
        }
    }
    Ok(stack)
}

fn read_formula(alloc: Global, text: &[u8]) -> Result<Arc<Formula>, NoMemory> {
    let mut stack = read(alloc, text)?;
    formula(alloc, &mut stack)
}

fn read_term(alloc: Global, text: &[u8]) -> Result<Term, NoMemory> {
    let mut stack = read(alloc, text)?;
    Ok(term(&mut stack))
}

/// Whether terms are those of a text.
fn are(alloc: Global, found: &[Term], text: &[u8]) -> Result<bool, NoMemory> {
    let want = read(alloc, text)?.terms;
    if found.len() != want.len() {
        return Ok(false);
    }
    for i in 0..found.len() {
        if !found[i].same(&want[i]) {
            return Ok(false);
        }
    }
    Ok(true)
}

/// Whether what was found is the terms of a text, or nothing where there is no text.
fn is_found(
    alloc: Global,
    found: Result<Option<Instance>, NoMemory>,
    want: Option<&[u8]>,
) -> Result<bool, NoMemory> {
    match found {
        Err(_) => Err(NoMemory),
        Ok(None) => Ok(want.is_none()),
        Ok(Some(terms)) => match want {
            None => Ok(false),
            Some(text) => are(alloc, &terms, text),
        },
    }
}

/// Whether a formula that was made is that of a text.
fn is(alloc: Global, made: Result<Formula, NoMemory>, want: &[u8]) -> Result<bool, NoMemory> {
    let want = read_formula(alloc, want)?;
    match &made {
        Ok(a) => Ok(a.same(&want)),
        Err(_) => Err(NoMemory),
    }
}

/// Whether a pattern with so many open variables is matched by a target in this way.
fn is_matched(
    alloc: Global,
    pattern: &[u8],
    open_vars: u64,
    target: &[u8],
    want: Option<&[u8]>,
) -> Result<bool, NoMemory> {
    let pattern = read_formula(alloc, pattern)?;
    let target = read_formula(alloc, target)?;
    is_found(alloc, matches(alloc, &pattern, open_vars, &target), want)
}

#[test]
fn matches_patterns(rt: HostRuntime) -> Result<(), Fail> {
    for (pattern, open_vars, target, want) in [
        (b"0P".as_slice(), 1, b"kP".as_slice(), Some(b"k".as_slice())),
        (b"0P", 1, b"kQ", None),
        (b"0P", 1, b"kkD", None),
        (b"0P1P&", 2, b"kP4fP&", Some(b"k4f")),
        (b"0P0P&", 1, b"kP4fP&", None),
        (b"0P0P&", 1, b"kP4fP|", None),
        (b"00=", 1, b"kfkf=", Some(b"kf")),
        (b"00=", 1, b"kfk=", None),
        (b"00=", 1, b"kk~", None),
        (b"0P1P|", 1, b"kP0P|", Some(b"k")),
        (b"0P1P>", 1, b"kP1P>", None),
        (b"2P", 1, b"1P", Some(b"0")),
        (b"0P", 2, b"kP", Some(b"k0")),
        (b"10DA", 1, b"20DA", Some(b"1")),
        (b"10DA", 1, b"00DA", None),
        (b"10DA", 1, b"10DB", Some(b"0")),
        (b"10DA", 1, b"10DC", None),
        (b"10DA", 1, b"10DE", None),
        (b"10DE", 1, b"1f0DE", Some(b"0f")),
        (b"0P1PA&", 1, b"3fP4fPA&", Some(b"3f")),
        (b"0P1PA&", 1, b"3fP3fPA&", None),
        (b"1PA2PAA>", 1, b"4PA5PAA>", Some(b"3")),
        (b"TF|A", 0, b"TF|B", Some(b"")),
    ] {
        assert!(rt; is_matched(rt.alloc(), pattern, open_vars, target, want)?);
    }
    Ok(())
}

/// Whether the first place of a goal that is an instance has these terms.
fn is_first(
    alloc: Global,
    pattern: &[u8],
    open_vars: u64,
    goal: &[u8],
    want: Option<&[u8]>,
) -> Result<bool, NoMemory> {
    let pattern = read_term(alloc, pattern)?;
    let goal = read_formula(alloc, goal)?;
    is_found(
        alloc,
        find_instance(alloc, &pattern, open_vars, &goal),
        want,
    )
}

#[test]
fn finds_the_first_place(rt: HostRuntime) -> Result<(), Fail> {
    for (pattern, open_vars, goal, want) in [
        (
            b"0f".as_slice(),
            1,
            b"kffk=".as_slice(),
            Some(b"kf".as_slice()),
        ),
        (b"0f", 1, b"4fkf=", Some(b"4")),
        (b"0f", 1, b"k4fkfg=", Some(b"4")),
        (b"0f", 1, b"kP4fP&", Some(b"4")),
        (b"0f", 1, b"kP4fP>", Some(b"4")),
        (b"0f", 1, b"kPT&", None),
        (b"0f", 1, b"0fPA", None),
        (b"0f", 1, b"0fPA4fPE|", Some(b"3")),
        (b"0f", 1, b"0f3f=A", Some(b"2")),
        (b"1f", 1, b"0f1f=A", Some(b"0")),
        (b"1f", 1, b"0f2f=A", None),
        (b"00g", 1, b"kkfgkfkfg=", Some(b"kf")),
        (b"01g", 2, b"0kgk1ggPA", Some(b"k0")),
        (b"0", 1, b"kfP", Some(b"kf")),
        (b"kf", 0, b"kffP", Some(b"")),
    ] {
        assert!(rt; is_first(rt.alloc(), pattern, open_vars, goal, want)?);
    }
    Ok(())
}

/// Whether a formula with one term for another is a third.
fn is_replaced(
    alloc: Global,
    goal: &[u8],
    from: &[u8],
    to: &[u8],
    want: &[u8],
) -> Result<bool, NoMemory> {
    let goal = read_formula(alloc, goal)?;
    let from = read_term(alloc, from)?;
    let to = read_term(alloc, to)?;
    is(alloc, replace_all(alloc, &goal, &from, &to), want)
}

#[test]
fn replaces_each_occurrence(rt: HostRuntime) -> Result<(), Fail> {
    for (goal, from, to, want) in [
        (
            b"kffk=".as_slice(),
            b"kff".as_slice(),
            b"kf".as_slice(),
            b"kfk=".as_slice(),
        ),
        (b"kfk=", b"kf", b"k", b"kk="),
        (b"kfkfg1=", b"kf", b"2", b"22g1="),
        (b"kffP", b"kf", b"k", b"kfP"),
        (b"2P3PA&", b"2", b"0f", b"0fP1fPA&"),
        (b"0P2PA|", b"1", b"k", b"0PkPA|"),
        (b"1P0PB>", b"1", b"0", b"0P0PA>"),
        (b"1PEFT&&", b"0", b"k", b"kPEFT&&"),
        (b"1P2PAC>", b"0", b"k", b"1PkPAC>"),
    ] {
        assert!(rt; is_replaced(rt.alloc(), goal, from, to, want)?);
    }
    Ok(())
}

/// Whether a formula with terms for its newest variables is another.
fn is_filled(alloc: Global, a: &[u8], terms: &[u8], want: &[u8]) -> Result<bool, NoMemory> {
    let a = read_formula(alloc, a)?;
    let terms = read(alloc, terms)?.terms;
    is(alloc, fill(alloc, &a, &terms), want)
}

/// Whether a term with terms for its newest variables is another.
fn is_term_filled(alloc: Global, t: &[u8], terms: &[u8], want: &[u8]) -> Result<bool, NoMemory> {
    let t = read_term(alloc, t)?;
    let terms = read(alloc, terms)?.terms;
    let made = vec![in alloc; fill_term(alloc, &t, &terms)?]?;
    are(alloc, &made, want)
}

#[test]
fn fills_patterns(rt: HostRuntime) -> Result<(), Fail> {
    for (a, terms, want) in [
        (b"0P1P&".as_slice(), b"k".as_slice(), b"kP0P&".as_slice()),
        (b"01=", b"k4f", b"k4f="),
        (b"12=", b"k4f", b"4f0="),
        (b"1PA2PA|", b"0f", b"1fPA1PA|"),
        (b"0PE3PC>", b"kk", b"0PE1PC>"),
        (b"01g4=", b"", b"01g4="),
    ] {
        assert!(rt; is_filled(rt.alloc(), a, terms, want)?);
    }
    assert!(rt; is_term_filled(rt.alloc(), b"0f", b"kf", b"kff")?);
    assert!(rt; is_term_filled(rt.alloc(), b"03g", b"k", b"k2g")?);
    Ok(())
}

/// Whether a variable stands in a formula, as it is wanted.
fn is_told(alloc: Global, a: &[u8], variable: u64, want: bool) -> Result<bool, NoMemory> {
    let a = read_formula(alloc, a)?;
    Ok(occurs(&a, variable) == want)
}

#[test]
fn tells_what_occurs(rt: HostRuntime) -> Result<(), Fail> {
    for (a, variable, want) in [
        (b"0P1P&".as_slice(), 1, true),
        (b"0P1P&", 2, false),
        (b"k2f=", 2, true),
        (b"0PA", 0, false),
        (b"1PA", 0, true),
        (b"0P3PAE|", 1, true),
        (b"0PA", u64::MAX, false),
        (b"TF>", 0, false),
    ] {
        assert!(rt; is_told(rt.alloc(), a, variable, want)?);
    }
    let t = read_term(rt.alloc(), b"03fg")?;
    assert!(rt; occurs_in_term(&t, 3) && !occurs_in_term(&t, 1));
    Ok(())
}
