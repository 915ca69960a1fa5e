//! A definition put in, wherever its name stands.
ghost use Rattle.std.specs.Prelude.{◌≡◌, ◌<◌, ℕ, [], List, map, IfOk, MatchOption};
ghost use Rattle.std.specs.Arc.{arc_slice_items, arc_value};
ghost use Rattle.fol_theory.specs.Substitution.{replace, replace_term};
ghost use Rattle.fol_theory.specs.Syntax.{app, nil, pred};
ghost use Rattle.match_theory.specs.Instances.{fill as filled};
ghost use Rattle.term_core.specs.Term as term;
ghost use Rattle.term_core.specs.Formula.{meaning};
ghost use Rattle.env_theory.specs.Declarations.{Declaration};
ghost use Rattle.env_theory.specs.Normal as theory;
ghost use Rattle.env_theory.specs.Normal.{argument};
ghost use Rattle.env_theory.specs.Typing.{Put};
ghost use Rattle.env_core.specs.Meaning.{declaration};
ghost use Rattle.tac_eq.specs.Bodies.{IsBody, IsOther, IsOtherTerm, IsTermBody};
ghost use Rattle.tac_eq.specs.Over.{IsOver, IsTermOver};

use base_core::NoMemory;
use env_core::Decl;
use match_core::{fill, fill_term};
use std::alloc::Global;
use std::sync::{Arc, ArcSlice};
use term_core::{Formula, Name, Term, Terms};

/// The formula with a definition put in wherever its name stands; the same where the declaration is none. `NoMemory` also where
/// an index passes 2^64 - 1.
#[cycle(expand)]
#[tactic(auto, using(crate::proofs::Expanded::formulas))]
pub(crate) fn expand(alloc: Global, decl: &Decl, a: &Formula) -> Result<Formula, NoMemory>
    requires { (E : List Declaration) × Put E (declaration decl.now) }
    ensures { IfOk result (λ r. meaning r ≡ theory.expand (declaration decl.now) (meaning a.now)) }
{
    match a {
        Formula::True => Ok(Formula::True),
        Formula::False => Ok(Formula::False),
        Formula::Pred(p, ts) => expand_predicate(alloc, decl, p, ts.as_slice()),
        Formula::Eq(s, t, u) => {
            let left = expand_term(alloc, decl, t)?;
            let right = expand_term(alloc, decl, u)?;
            Ok(Formula::Eq(s.copy()?, left, right))
        }
        Formula::And(b, c) => {
            let left = expand_part(alloc, decl, b)?;
            let right = expand_part(alloc, decl, c)?;
            Ok(Formula::And(left, right))
        }
        Formula::Or(b, c) => {
            let left = expand_part(alloc, decl, b)?;
            let right = expand_part(alloc, decl, c)?;
            Ok(Formula::Or(left, right))
        }
        Formula::Imp(b, c) => {
            let left = expand_part(alloc, decl, b)?;
            let right = expand_part(alloc, decl, c)?;
            Ok(Formula::Imp(left, right))
        }
        Formula::All(s, x, b) => {
            let inner = expand_part(alloc, decl, b)?;
            Ok(Formula::All(s.copy()?, x.copy()?, inner))
        }
        Formula::Ex(s, x, b) => {
            let inner = expand_part(alloc, decl, b)?;
            Ok(Formula::Ex(s.copy()?, x.copy()?, inner))
        }
    }
}

/// A part.
#[cycle(expand)]
fn expand_part(alloc: Global, decl: &Decl, a: &Arc<Formula>) -> Result<Arc<Formula>, NoMemory>
    requires { (E : List Declaration) × Put E (declaration decl.now) }
    ensures { IfOk result (λ r. meaning (arc_value r) ≡ theory.expand (declaration decl.now) (meaning (arc_value a.now))) }
{
    let made = expand(alloc, decl, a)?;
    Ok(Arc::new(alloc, made)?)
}

/// A predicate with its arguments.
#[tactic(auto, using(term_core::proofs::Variants::meanings))]
fn expand_predicate(alloc: Global, decl: &Decl, p: &Name, ts: &[Term]) -> Result<Formula, NoMemory>
    requires { (E : List Declaration) × Put E (declaration decl.now) }
    ensures { IfOk result (λ r. meaning r ≡ theory.expand (declaration decl.now) (pred p.now (term.list_meaning ts.now))) }
{
    match predicate_body(decl, p) {
        Some((body, parameters)) => put_in(alloc, body, parameters, ts),
        None => {
            let made = expand_terms(alloc, decl, ts)?;
            Ok(Formula::Pred(p.copy()?, made))
        }
    }
}

/// A term.
#[cycle(expand_term)]
#[tactic(auto, using(crate::proofs::Expanded::applications))]
fn expand_term(alloc: Global, decl: &Decl, t: &Term) -> Result<Term, NoMemory>
    requires { (E : List Declaration) × Put E (declaration decl.now) }
    ensures { IfOk result (λ r. term.meaning r ≡ theory.expand_term (declaration decl.now) (term.meaning t.now)) }
{
    match t {
        Term::Var(i) => Ok(Term::Var(*i)),
        Term::App(f, ts) => expand_application(alloc, decl, f, ts.as_slice()),
    }
}

/// A function with its arguments, into which the definition is put first.
#[cycle(expand_term)]
fn expand_application(alloc: Global, decl: &Decl, f: &Name, ts: &[Term]) -> Result<Term, NoMemory>
    requires { (E : List Declaration) × Put E (declaration decl.now) }
    ensures { IfOk result (λ r. term.meaning r ≡ theory.expand_term (declaration decl.now) (app f.now (term.list_meaning ts.now))) }
{
    let made = expand_terms(alloc, decl, ts)?;
    match function_body(decl, f) {
        Some((body, parameters)) => put_in_term(alloc, body, parameters, made.as_slice()),
        None => Ok(Term::App(f.copy()?, made)),
    }
}

/// Terms, in order.
#[cycle(expand_term)]
fn expand_terms(alloc: Global, decl: &Decl, ts: &[Term]) -> Result<Terms, NoMemory>
    requires { (E : List Declaration) × Put E (declaration decl.now) }
    ensures { IfOk result (λ r. term.list_meaning (arc_slice_items r) ≡ theory.expand_terms (declaration decl.now) (term.list_meaning ts.now)) }
{
    let mut made = Vec::with_capacity(alloc, ts.len())?;
    for t in ts {
        made.push(expand_term(alloc, decl, t)?)?;
    }
    Ok(ArcSlice::from_vec(made)?)
}

/// What is put in for a predicate of this name, and how many parameters it has; None where nothing is.
fn predicate_body<'a>(decl: &'a Decl, p: &Name) -> Option<(&'a Formula, usize)>
    requires { (E : List Declaration) × Put E (declaration decl.now) }
    ensures { MatchOption result (IsOther (declaration decl.now) p.now)
        (λ b. IsBody (declaration decl.now) p.now (meaning b.0.now) × ((E : List Declaration) × IsOver E b.1 (meaning b.0.now))) }
{
    match decl {
        Decl::DefPred { name, params, body } => {
            if name == p {
                Some((body, params.len()))
            } else {
                None
            }
        }
        _ => None,
    }
}

/// The same for a function.
fn function_body<'a>(decl: &'a Decl, f: &Name) -> Option<(&'a Term, usize)>
    requires { (E : List Declaration) × Put E (declaration decl.now) }
    ensures { MatchOption result (IsOtherTerm (declaration decl.now) f.now)
        (λ b. IsTermBody (declaration decl.now) f.now (term.meaning b.0.now) × ((E : List Declaration) × IsTermOver E b.1 (term.meaning b.0.now))) }
{
    match decl {
        Decl::DefFun {
            name,
            params,
            body,
            ..
        } => {
            if name == f {
                Some((body, params.len()))
            } else {
                None
            }
        }
        _ => None,
    }
}

/// A formula with arguments for its variables, of which there are no more than so many.
fn put_in(
    alloc: Global,
    body: &Formula,
    parameters: usize,
    ts: &[Term],
) -> Result<Formula, NoMemory>
    requires { (E : List Declaration) × IsOver E parameters (meaning body.now) }
    ensures { IfOk result (λ r. meaning r ≡ replace (argument (term.list_meaning ts.now)) (meaning body.now)) }
{
    let terms = in_order(alloc, parameters, ts)?;
    fill(alloc, body, &terms)
}

/// The same with a term.
fn put_in_term(alloc: Global, body: &Term, parameters: usize, ts: &[Term]) -> Result<Term, NoMemory>
    requires { (E : List Declaration) × IsTermOver E parameters (term.meaning body.now) }
    ensures { IfOk result (λ r. term.meaning r ≡ replace_term (argument (term.list_meaning ts.now)) (term.meaning body.now)) }
{
    let terms = in_order(alloc, parameters, ts)?;
    fill_term(alloc, body, &terms)
}

/// The terms for the variables of a body with so many parameters, from 0 on.
fn in_order(alloc: Global, parameters: usize, ts: &[Term]) -> Result<Vec<Term>, NoMemory>
    ensures { IfOk result (λ v. (i : ℕ) → i < parameters → filled (map term.meaning v.items) i ≡ argument (term.list_meaning ts.now) i) }
{
    let mut terms = Vec::with_capacity(alloc, parameters)?;
    for i in 0..parameters {
        terms.push(argument_for(alloc, ts, i)?)?;
    }
    Ok(terms)
}

/// The argument for a variable of a body: the last is for the variable 0.
fn argument_for(alloc: Global, ts: &[Term], variable: usize) -> Result<Term, NoMemory>
    ensures { IfOk result (λ t. term.meaning t ≡ argument (term.list_meaning ts.now) variable) }
{
    if variable < ts.len() {
        ts[ts.len() - 1 - variable].copy()
    } else {
        closed(alloc)
    }
}

/// What stands for a variable beyond the arguments, which no well formed formula has.
fn closed(alloc: Global) -> Result<Term, NoMemory>
    ensures { IfOk result (λ t. term.meaning t ≡ app [] nil) }
{
    let none = ArcSlice::from_vec(Vec::new(alloc))?;
    Ok(Term::App(Name::from_slice(alloc, b"")?, none))
}
