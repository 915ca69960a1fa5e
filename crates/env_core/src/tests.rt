//! Environments of sorts and of aliases, by each public call, and arguments put into formulas that are typed by hand.
ghost use Rattle.std.specs.Prelude.{◌≡◌, ℕ, [], List, Some, IsTrue};
ghost use Rattle.fol_theory.specs.Syntax.{Formula as Meaning};
ghost use Rattle.env_theory.specs.Declarations.{find, formula};
ghost use Rattle.env_core.specs.Meaning.{declarations};

use super::*;
use crate::head::{Frame, fill};
use base_core::NoMemory;
use std::alloc::Global;
use std::sync::{Arc, ArcSlice};
use std::test::Fail;
use term_core::{Formula, Name, Term, Terms};

/// Adds a sort where nothing has its name.
fn add_sort(alloc: Global, env: &mut Env, text: &[u8]) -> Result<(), NoMemory> {
    let name = Name::from_slice(alloc, text)?;
    if env.find(&name).is_none() {
        env.add(Decl::Sort { name })?;
    }
    Ok(())
}

#[test]
fn declarations_are_found_and_copies_stay(rt: HostRuntime) -> Result<(), Fail> {
    let alloc = rt.alloc();
    let mut env = Env::new(alloc);
    for text in [b"A".as_slice(), b"B", b"C", b"D", b"E", b"F", b"G", b"A"] {
        add_sort(alloc, &mut env, text)?;
    }
    let copy = env.snapshot()?;
    add_sort(alloc, &mut env, b"H")?;
    assert_eq!(rt; env.len(), 8);
    assert_eq!(rt; copy.len(), 7);
    let newest = Name::from_slice(alloc, b"H")?;
    assert!(rt; env.find(&newest).is_some());
    assert!(rt; copy.find(&newest).is_none());
    let prefix = Name::from_slice(alloc, b"")?;
    assert!(rt; env.find(&prefix).is_none());
    assert_eq!(rt; env.at(0).name().as_slice(), b"A".as_slice());
    assert_eq!(rt; env.at(7).name().as_slice(), b"H".as_slice());
    Ok(())
}

/// Whether a name has a definition without parameters.
fn is_plain(env: &Env, name: &Name) -> bool
    ensures { IsTrue result → (n : List ℕ) × (b : Meaning) × (find (declarations env.now) name.now ≡ Some (formula n [] b)) }
{
    match env.find(name) {
        Some(Decl::DefPred { params, .. }) => params.is_empty(),
        _ => false,
    }
}

/// Adds a definition without parameters whose body is True, where nothing has its name.
fn add_true(alloc: Global, env: &mut Env, name: &Name) -> Result<(), NoMemory> {
    if env.find(name).is_some() {
        return Ok(());
    }
    env.add(Decl::DefPred {
        name: name.copy()?,
        params: Vec::new(alloc),
        body: Formula::True,
    })
}

/// Adds an alias of a definition without parameters, where nothing has its name.
fn add_alias(alloc: Global, env: &mut Env, name: &Name, older: &Name) -> Result<(), NoMemory> {
    if env.find(name).is_some() || !is_plain(env, older) {
        return Ok(());
    }
    let none = ArcSlice::from_vec(Vec::new(alloc))?;
    env.add(Decl::DefPred {
        name: name.copy()?,
        params: Vec::new(alloc),
        body: Formula::Pred(older.copy()?, none),
    })
}

/// Whether the head form of a predicate without arguments is True.
fn is_true(alloc: Global, env: &Env, name: &Name) -> Result<bool, NoMemory> {
    let none = ArcSlice::from_vec(Vec::new(alloc))?;
    let a = Formula::Pred(name.copy()?, none);
    let made = Arc::new(alloc, env.head_form(&a)?)?;
    Ok(made.same(&Formula::True))
}

#[test]
fn aliases_are_gone_along(rt: HostRuntime) -> Result<(), Fail> {
    let alloc = rt.alloc();
    let mut env = Env::new(alloc);
    let mut last = Name::from_slice(alloc, b"d")?;
    assert!(rt; !is_true(alloc, &env, &last)?);
    add_true(alloc, &mut env, &last)?;
    for i in 0..4u8 {
        for j in 0..250u8 {
            let name = Name::from_slice(alloc, &[i, j])?;
            add_alias(alloc, &mut env, &name, &last)?;
            last = name;
        }
    }
    assert_eq!(rt; env.len(), 1001);
    assert!(rt; is_true(alloc, &env, &last)?);
    Ok(())
}

/// The function g of two terms.
fn g(alloc: Global, t: Term, u: Term) -> Result<Term, NoMemory> {
    let arguments = ArcSlice::from_vec(vec![in alloc; t, u]?)?;
    Ok(Term::App(Name::from_slice(alloc, b"g")?, arguments))
}

/// The predicate P of two terms.
fn p(alloc: Global, t: Term, u: Term) -> Result<Arc<Formula>, NoMemory> {
    let arguments = ArcSlice::from_vec(vec![in alloc; t, u]?)?;
    Ok(Arc::new(
        alloc,
        Formula::Pred(Name::from_slice(alloc, b"P")?, arguments),
    )?)
}

/// forall z : T, exists w : T, P (g t z) (g u w), with t and u as they stand there.
fn quantified(alloc: Global, t: Term, u: Term) -> Result<Arc<Formula>, NoMemory> {
    let sort = Name::from_slice(alloc, b"T")?;
    let first = g(alloc, t, Term::Var(1))?;
    let inner = p(alloc, first, g(alloc, u, Term::Var(0))?)?;
    let exists = Arc::new(
        alloc,
        Formula::Ex(sort.copy()?, Name::from_slice(alloc, b"w")?, inner),
    )?;
    Ok(Arc::new(
        alloc,
        Formula::All(sort, Name::from_slice(alloc, b"z")?, exists),
    )?)
}

/// Whether arguments put into a formula make another.
fn makes(
    alloc: Global,
    frames: &[Frame<'_>],
    a: &Formula,
    wanted: &Formula,
) -> Result<bool, NoMemory> {
    let made = Arc::new(alloc, fill(alloc, frames, 0, a)?)?;
    Ok(made.same(wanted))
}

/// In r (x y) := q y (g x y) over q (x y) := forall z, exists w, P (g x z) (g y w), the head form of r 4 (g 0 1) is
/// forall z, exists w, P (g (g 2 3) z) (g (g 6 (g 2 3)) w), where a number is a variable.
#[test]
fn arguments_are_shifted_under_quantifiers(rt: HostRuntime) -> Result<(), Fail> {
    let alloc = rt.alloc();
    let outer = vec![in alloc; Term::Var(4), g(alloc, Term::Var(0), Term::Var(1))?]?;
    let inner = vec![in alloc; Term::Var(0), g(alloc, Term::Var(1), Term::Var(0))?]?;
    let frames = [
        Frame {
            arguments: outer.as_slice(),
        },
        Frame {
            arguments: inner.as_slice(),
        },
    ];
    let a = quantified(alloc, Term::Var(3), Term::Var(2))?;
    let moved = g(alloc, Term::Var(2), Term::Var(3))?;
    let wanted = quantified(alloc, moved.copy()?, g(alloc, Term::Var(6), moved)?)?;
    assert!(rt; makes(alloc, &frames, &a, &wanted)?);
    Ok(())
}

/// An argument that doubles 40 times and vanishes isn't made.
#[test]
fn doublings_that_vanish_are_not_made(rt: HostRuntime) -> Result<(), Fail> {
    let alloc = rt.alloc();
    let twice = vec![in alloc; g(alloc, Term::Var(0), Term::Var(0))?]?;
    let mut frames = Vec::new(alloc);
    for _ in 0..40u8 {
        frames.push(Frame {
            arguments: twice.as_slice(),
        })?;
    }
    assert!(rt; makes(alloc, frames.as_slice(), &Formula::True, &Formula::True)?);
    let once = g(alloc, Term::Var(0), Term::Var(0))?;
    let wanted = p(alloc, g(alloc, once.copy()?, once.copy()?)?, once)?;
    let a = p(alloc, g(alloc, Term::Var(0), Term::Var(0))?, Term::Var(0))?;
    let one = [Frame {
        arguments: twice.as_slice(),
    }];
    assert!(rt; makes(alloc, &one, &a, &wanted)?);
    Ok(())
}
