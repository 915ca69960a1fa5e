//! What no clause says: small formulas typed by hand, large ones, and each call with ample memory.
ghost use Rattle.std.specs.Prelude.{◌≤◌, IsTrue};
ghost use Rattle.fol_theory.specs.Measures.{reach, term_reach, terms_reach};
ghost use Rattle.term_core.specs.Formula.{meaning};
ghost use Rattle.term_core.specs.Term as term;

use crate::{Context, Formula, Name, Slot, Term, Terms};
use base_core::{NoMemory, SharedBytes};
use std::alloc::Global;
use std::process::Abort;
use std::sync::{Arc, ArcSlice};
use std::test::Fail;

/// Above every index, height and count of the small formulas here.
const SMALL: u64 = 100_000;

fn name(alloc: Global, text: &str) -> Result<Name, NoMemory> {
    Name::from_slice(alloc, text.as_bytes())
}

fn predicate(alloc: Global, text: &str, arguments: Terms) -> Result<Formula, NoMemory> {
    Ok(Formula::Pred(name(alloc, text)?, arguments))
}

/// A formula whose holders share it: to pass it on costs less to prove than to pass a formula on.
fn share(alloc: Global, a: Formula) -> Result<Arc<Formula>, NoMemory> {
    Ok(Arc::new(alloc, a)?)
}

/// The predicate `p` of a term.
fn p(alloc: Global, t: Term) -> Result<Formula, NoMemory> {
    predicate(alloc, "p", ArcSlice::from_vec(vec![in alloc; t]?)?)
}

/// `f` of two terms.
fn f(alloc: Global, t: Term, u: Term) -> Result<Term, NoMemory> {
    let name = name(alloc, "f")?;
    Ok(Term::App(name, ArcSlice::from_vec(vec![in alloc; t, u]?)?))
}

/// `f` of two variables.
fn f_of(alloc: Global, i: u64, j: u64) -> Result<Term, NoMemory> {
    f(alloc, Term::Var(i), Term::Var(j))
}

/// An equation of a variable and `f` of two.
fn equation(alloc: Global, sort: &str, i: u64, j: u64, k: u64) -> Result<Formula, NoMemory> {
    Ok(Formula::Eq(name(alloc, sort)?, Term::Var(i), f_of(alloc, j, k)?))
}

fn pair(sign: u8, a: Arc<Formula>, b: Arc<Formula>) -> Formula {
    match sign {
        b'&' => Formula::And(a, b),
        b'|' => Formula::Or(a, b),
        _ => Formula::Imp(a, b),
    }
}

/// `A` and `E` bind a variable `x` of the sort `nat`, `B` one that is printed as `y`, `C` one of another sort.
fn bind(alloc: Global, sign: u8, a: Arc<Formula>) -> Result<Arc<Formula>, NoMemory> {
    let sort = name(alloc, if sign == b'C' { "set" } else { "nat" })?;
    let printed = name(alloc, if sign == b'B' { "y" } else { "x" })?;
    share(
        alloc,
        match sign {
            b'E' => Formula::Ex(sort, printed, a),
            _ => Formula::All(sort, printed, a),
        },
    )
}

/// A digit is `p` of that variable, and `a`, `b` and `c` are `p` of f(0, 3), f(1, 4) and f(2, 5). `p` has two
/// arguments at `d`, and `e` is another predicate. `=` is 1 = f(0, 2), `s` the same at another sort, `t` is
/// 3 = f(0, 4), and `u` is f(0, 3) = f(0, 1).
fn leaf(alloc: Global, sign: u8) -> Result<Formula, NoMemory> {
    match sign {
        b'0'..=b'9' => p(alloc, Term::Var(u64::from(sign - b'0'))),
        b'a' => p(alloc, f_of(alloc, 0, 3)?),
        b'b' => p(alloc, f_of(alloc, 1, 4)?),
        b'c' => p(alloc, f_of(alloc, 2, 5)?),
        b'd' => predicate(
            alloc,
            "p",
            ArcSlice::from_vec(vec![in alloc; Term::Var(0), Term::Var(0)]?)?,
        ),
        b'e' => predicate(
            alloc,
            "q",
            ArcSlice::from_vec(vec![in alloc; Term::Var(0)]?)?,
        ),
        b'=' => equation(alloc, "nat", 1, 0, 2),
        b's' => equation(alloc, "set", 1, 0, 2),
        b't' => equation(alloc, "nat", 3, 0, 4),
        b'u' => Ok(Formula::Eq(name(alloc, "nat")?, f_of(alloc, 0, 3)?, f_of(alloc, 0, 1)?)),
        b'F' => Ok(Formula::False),
        _ => Ok(Formula::True),
    }
}

/// The last formula that was read.
fn last(alloc: Global, stack: &mut Vec<Arc<Formula>>) -> Result<Arc<Formula>, NoMemory> {
    match stack.pop() {
        Some(a) => Ok(a),
        None => share(alloc, Formula::True),
    }
}

/// The formula with one sign more behind those that were read.
fn take_sign(
    alloc: Global,
    sign: u8,
    stack: &mut Vec<Arc<Formula>>,
) -> Result<Arc<Formula>, NoMemory> {
    match sign {
        b'&' | b'|' | b'>' => {
            let b = last(alloc, stack)?;
            let a = last(alloc, stack)?;
            share(alloc, pair(sign, a, b))
        }
        b'A' | b'B' | b'C' | b'E' => bind(alloc, sign, last(alloc, stack)?),
        _ => share(alloc, leaf(alloc, sign)?),
    }
}

/// A formula written with each sign behind its parts.
fn read(alloc: Global, text: &[u8]) -> Result<Arc<Formula>, NoMemory> {
    let mut stack: Vec<Arc<Formula>> = Vec::new(alloc);
    for sign in text {
        let a = take_sign(alloc, *sign, &mut stack)?;
        stack.push(a)?;
    }
    last(alloc, &mut stack)
}

#[cycle(within)]
fn is_term_within(t: &Term, bound: u64) -> bool
    ensures { IsTrue result → term_reach (term.meaning t.now) ≤ bound }
{
    match t {
        Term::Var(i) => *i < bound,
        Term::App(_, ts) => are_terms_within(ts.as_slice(), bound),
    }
}

#[cycle(within)]
fn are_terms_within(ts: &[Term], bound: u64) -> bool
    ensures { IsTrue result → terms_reach (term.list_meaning ts.now) ≤ bound }
{
    for t in ts {
        if !is_term_within(t, bound) {
            return false;
        }
    }
    true
}

fn is_within(a: &Formula, bound: u64) -> bool
    ensures { IsTrue result → reach (meaning a.now) ≤ bound }
{
    match a {
        Formula::True | Formula::False => true,
        Formula::Pred(_, ts) => are_terms_within(ts.as_slice(), bound),
        Formula::Eq(_, t, u) => is_term_within(t, bound) && is_term_within(u, bound),
        Formula::And(a, b) | Formula::Or(a, b) | Formula::Imp(a, b) => {
            if !is_within(a, bound) {
                return false;
            }
            is_within(b, bound)
        }
        Formula::All(_, _, a) | Formula::Ex(_, _, a) => is_within(a, bound),
    }
}

/// A shift of a small formula.
#[tactic(auto, using(crate::proofs::Bounds::bounds))]
fn shift(
    rt: &(impl Abort + AllocGlobal),
    a: &Formula,
    from: u64,
    by: u64,
) -> Result<Formula, NoMemory> {
    assert!(rt; from < SMALL);
    assert!(rt; by < SMALL);
    assert!(rt; a.height() < SMALL);
    assert!(rt; is_within(a, SMALL));
    a.shift(rt.alloc(), from, by)
}

/// A shift of a small term.
#[tactic(auto, using(crate::proofs::Bounds::bounds))]
fn shift_term(
    rt: &(impl Abort + AllocGlobal),
    t: &Term,
    from: u64,
    by: u64,
) -> Result<Term, NoMemory> {
    assert!(rt; by < SMALL);
    assert!(rt; is_term_within(t, SMALL));
    t.shift(rt.alloc(), from, by)
}

/// A substitution in a small formula.
#[tactic(auto, using(crate::proofs::Bounds::bounds))]
fn substitute(
    rt: &(impl Abort + AllocGlobal),
    a: &Formula,
    index: u64,
    value: &Term,
) -> Result<Formula, NoMemory> {
    assert!(rt; index < SMALL);
    assert!(rt; a.height() < SMALL);
    assert!(rt; is_within(a, SMALL));
    assert!(rt; is_term_within(value, SMALL));
    a.substitute(rt.alloc(), index, value)
}

/// Whether a formula that was made is another.
fn is(made: Result<Formula, NoMemory>, want: &Formula) -> Result<bool, NoMemory> {
    match &made {
        Ok(a) => Ok(a.same(want)),
        Err(_) => Err(NoMemory),
    }
}

/// Whether a formula that is shifted from 1 by 2 is another.
fn is_shifted(rt: &(impl Abort + AllocGlobal), text: &[u8], want: &[u8]) -> Result<bool, NoMemory> {
    let a = read(rt.alloc(), text)?;
    let want = read(rt.alloc(), want)?;
    is(shift(rt, &a, 1, 2), &want)
}

/// Whether a formula with f(0, 3) for the variable 1 is another.
fn is_substituted(
    rt: &(impl Abort + AllocGlobal),
    text: &[u8],
    want: &[u8],
) -> Result<bool, NoMemory> {
    let a = read(rt.alloc(), text)?;
    let want = read(rt.alloc(), want)?;
    let value = f_of(rt.alloc(), 0, 3)?;
    is(substitute(rt, &a, 1, &value), &want)
}

/// Whether a formula has this size and height, and 6 nodes leave so many behind it.
fn is_measured(
    alloc: Global,
    text: &[u8],
    size: u64,
    height: u64,
    left: Option<u64>,
) -> Result<bool, NoMemory> {
    let a = read(alloc, text)?;
    Ok(a.size() == size && a.height() == height && a.spend(6) == left)
}

#[test]
fn answers_the_table(rt: HostRuntime) -> Result<(), Fail> {
    for (text, shifted, substituted, size, height, left) in [
        (
            b"T".as_slice(),
            b"T".as_slice(),
            b"T".as_slice(),
            1,
            1,
            Some(5),
        ),
        (b"0", b"0", b"0", 2, 2, Some(4)),
        (b"1", b"3", b"a", 2, 2, Some(4)),
        (b"2", b"4", b"1", 2, 2, Some(4)),
        (b"=", b"t", b"u", 5, 3, Some(1)),
        (b"1A", b"1A", b"1A", 3, 3, Some(3)),
        (b"02&E", b"04&E", b"0b&E", 6, 4, Some(0)),
        (b"35F|>EA", b"57F|>EA", b"c4F|>EA", 9, 6, None),
    ] {
        assert!(rt; is_shifted(&rt, text, shifted)?);
        assert!(rt; is_substituted(&rt, text, substituted)?);
        assert!(rt; is_measured(rt.alloc(), text, size, height, left)?);
    }
    Ok(())
}

/// Whether two formulas are told apart, or taken for the same, both ways round.
fn are_same(alloc: Global, text: &[u8], other: &[u8], want: bool) -> Result<bool, NoMemory> {
    let a = read(alloc, text)?;
    let b = read(alloc, other)?;
    Ok(a.same(&b) == want && b.same(&a) == want)
}

#[test]
fn tells_formulas_apart(rt: HostRuntime) -> Result<(), Fail> {
    for (text, other, want) in [
        (b"T".as_slice(), b"T".as_slice(), true),
        (b"T", b"F", false),
        (b"0", b"1", false),
        (b"0", b"a", false),
        (b"0", b"d", false),
        (b"0", b"e", false),
        (b"=", b"=", true),
        (b"=", b"s", false),
        (b"=", b"t", false),
        (b"01&", b"01&", true),
        (b"01&", b"10&", false),
        (b"01&", b"01|", false),
        (b"01|", b"01>", false),
        (b"0A", b"0B", true),
        (b"0A", b"0C", false),
        (b"0A", b"0E", false),
        (b"0A1&E", b"0B1&E", true),
    ] {
        assert!(rt; are_same(rt.alloc(), text, other, want)?);
    }
    Ok(())
}

/// Whether a term that was made is f of two variables.
fn is_f(made: Result<Term, NoMemory>, alloc: Global, i: u64, j: u64) -> Result<bool, NoMemory> {
    let want = f_of(alloc, i, j)?;
    match &made {
        Ok(t) => Ok(t.same(&want)),
        Err(_) => Err(NoMemory),
    }
}

/// Whether f(1, 2) that is shifted is f of two other variables.
fn is_term_shifted(
    rt: &(impl Abort + AllocGlobal),
    from: u64,
    by: u64,
    i: u64,
    j: u64,
) -> Result<bool, NoMemory> {
    let t = f_of(rt.alloc(), 1, 2)?;
    is_f(shift_term(rt, &t, from, by), rt.alloc(), i, j)
}

/// Whether f(1, 2) with a variable for another is f of two variables.
fn is_term_substituted(
    alloc: Global,
    index: u64,
    value: u64,
    i: u64,
    j: u64,
) -> Result<bool, NoMemory> {
    let t = f_of(alloc, 1, 2)?;
    is_f(t.substitute(alloc, index, &Term::Var(value)), alloc, i, j)
}

/// Whether f(1, 2) is its copy and has three nodes, two on each way down.
fn is_term_measured(alloc: Global) -> Result<bool, NoMemory> {
    let t = f_of(alloc, 1, 2)?;
    let measured = t.size() == 3 && t.height() == 2 && t.spend(5) == Some(2) && t.spend(2) == None;
    Ok(measured && is_f(t.copy(), alloc, 1, 2)?)
}

#[test]
fn serves_terms(rt: HostRuntime) -> Result<(), Fail> {
    assert!(rt; is_term_measured(rt.alloc())?);
    for (from, by, i, j) in [
        (0, 3, 4, 5),
        (1, 3, 4, 5),
        (2, 3, 1, 5),
        (3, 3, 1, 2),
        (1, 0, 1, 2),
    ] {
        assert!(rt; is_term_shifted(&rt, from, by, i, j)?);
    }
    for (index, value, i, j) in [
        (0, 7, 0, 1),
        (1, 7, 7, 1),
        (2, u64::MAX, 1, u64::MAX),
        (3, 7, 1, 2),
    ] {
        assert!(rt; is_term_substituted(rt.alloc(), index, value, i, j)?);
    }
    Ok(())
}

/// Whether a name, its copy and one of shared bytes are one name.
fn is_name_kept(alloc: Global) -> Result<bool, NoMemory> {
    let name = name(alloc, "plus")?;
    let copy = name.copy()?;
    let shared = Name::from_shared(SharedBytes::from_slice(alloc, b"plus")?);
    Ok(copy == name && shared.same(&name) && copy.as_slice() == b"plus".as_slice())
}

#[test]
fn keeps_names(rt: HostRuntime) -> Result<(), Fail> {
    assert!(rt; is_name_kept(rt.alloc())?);
    Ok(())
}

/// `p` of a variable under 1,022 binders.
fn high(alloc: Global) -> Result<Arc<Formula>, NoMemory> {
    let mut high = share(alloc, p(alloc, Term::Var(2_000))?)?;
    for _ in 0..1_022 {
        high = bind(alloc, b'A', high)?;
    }
    Ok(high)
}

/// `p` of 65,535 variables.
fn wide(alloc: Global) -> Result<Arc<Formula>, NoMemory> {
    let mut arguments = Vec::new(alloc);
    for i in 0..65_535 {
        arguments.push(Term::Var(i))?;
    }
    let name = name(alloc, "p")?;
    share(alloc, Formula::Pred(name, ArcSlice::from_vec(arguments)?))
}

/// Whether a formula has this size and height, is its copy, and isn't what it is shifted to.
fn is_served(
    rt: &(impl Abort + AllocGlobal),
    a: &Formula,
    size: u64,
    height: u64,
) -> Result<bool, NoMemory> {
    let measured = a.size() == size && a.height() == height;
    Ok(measured && is(a.copy(), a)? && !is(shift(rt, a, 0, 1), a)?)
}

#[test]
fn serves_large_formulas(rt: HostRuntime) -> Result<(), Fail> {
    let high = high(rt.alloc())?;
    assert!(rt; is_served(&rt, &high, 1_024, 1_024)?);
    let wide = wide(rt.alloc())?;
    assert!(rt; is_served(&rt, &wide, 65_536, 2)?);
    Ok(())
}

/// A context pushed slot by slot: a digit is a hypothesis with that name, `p` of that variable, and any other byte a
/// variable with that name.
fn context(alloc: Global, text: &[u8]) -> Result<Context, NoMemory> {
    let mut context = Context::Empty;
    for sign in text {
        let name = Name::from_slice(alloc, &[*sign])?;
        let slot = match sign {
            b'0'..=b'9' => Slot::Hyp {
                name,
                formula: leaf(alloc, *sign)?,
            },
            _ => Slot::Var {
                name,
                sort: self::name(alloc, "nat")?,
            },
        };
        context = context.push(alloc, slot)?;
    }
    Ok(context)
}

/// The names of the slots, the newest first.
fn signs(alloc: Global, context: &Context) -> Result<Vec<u8>, NoMemory> {
    let mut all = Vec::new(alloc);
    let mut at = context;
    while let Some((slot, older)) = at.newest() {
        all.extend_from_slice(slot.name().as_slice())?;
        at = older;
    }
    Ok(all)
}

/// The names without a hypothesis.
fn signs_without(alloc: Global, context: &Context, number: u64) -> Result<Vec<u8>, NoMemory> {
    signs(alloc, &context.without(alloc, number)?)
}

/// Whether the hypothesis with this number is that formula, older than so many variables.
fn is_hypothesis(alloc: Global, number: u64, want: &[u8], newer: u64) -> Result<bool, NoMemory> {
    let all = context(alloc, b"x0y1z2")?;
    let want = read(alloc, want)?;
    match all.hypothesis(number)? {
        Some((a, n)) => Ok(n == newer && a.same(&want)),
        None => Ok(false),
    }
}

/// Whether the slots without a hypothesis have these names.
fn is_rest(alloc: Global, number: u64, rest: &[u8]) -> Result<bool, NoMemory> {
    let all = context(alloc, b"x0y1z2")?;
    Ok(signs_without(alloc, &all, number)?.as_slice() == rest)
}

#[test]
fn counts_hypotheses_from_the_oldest(rt: HostRuntime) -> Result<(), Fail> {
    for (number, want, newer, rest) in [
        (0, b"0".as_slice(), 2, b"2z1yx".as_slice()),
        (1, b"1", 1, b"2zy0x"),
        (2, b"2", 0, b"z1y0x"),
    ] {
        assert!(rt; is_hypothesis(rt.alloc(), number, want, newer)?);
        assert!(rt; is_rest(rt.alloc(), number, rest)?);
    }
    assert!(rt; !is_hypothesis(rt.alloc(), 3, b"2", 0)?);
    assert!(rt; is_rest(rt.alloc(), 3, b"2z1y0x")?);
    Ok(())
}

#[test]
fn finds_the_newest_of_a_name(rt: HostRuntime) -> Result<(), Fail> {
    let all = context(rt.alloc(), b"x0y0z")?;
    for (name, older) in [
        (b"z".as_slice(), Some(b"0y0x".as_slice())),
        (b"0", Some(b"y0x")),
        (b"x", Some(b"")),
        (b"1", None),
    ] {
        let found = all.find(&Name::from_slice(rt.alloc(), name)?);
        let found = match found {
            None => None,
            Some((slot, older)) => {
                assert_eq!(rt; slot.name().as_slice(), name);
                Some(signs(rt.alloc(), older)?)
            }
        };
        assert_eq!(rt;
            found.as_ref().map(|signs| signs.as_slice()),
            older,
            "{name:?}"
        );
    }
    Ok(())
}

/// A variable, a hypothesis and 1,000,000 hypotheses more.
fn long(alloc: Global) -> Result<Context, NoMemory> {
    let name = name(alloc, "H")?;
    let mut long = context(alloc, b"x0")?;
    for _ in 0..1_000_000 {
        let slot = Slot::Hyp {
            name: name.copy()?,
            formula: Formula::False,
        };
        long = long.push(alloc, slot)?;
    }
    Ok(long)
}

/// Whether a copy of it is counted, looked into and made shorter, when the first holder is gone.
fn is_long_served(alloc: Global) -> Result<bool, NoMemory> {
    let long = long(alloc)?;
    let copy = long.copy()?;
    drop(long);
    let rest = copy.without(alloc, 0)?;
    Ok(copy.count() == 1_000_001 && copy.hypothesis(0)?.is_some() && rest.count() == 1_000_000)
}

#[test]
fn serves_long_contexts(rt: HostRuntime) -> Result<(), Fail> {
    assert!(rt; is_long_served(rt.alloc())?);
    Ok(())
}
