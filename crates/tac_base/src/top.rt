//! Formulas by their tops.
ghost use Rattle.std.specs.Prelude.{◌≡◌};
ghost use Rattle.term_core.specs.Formula.{meaning};
ghost use Rattle.tac_base.specs.Tops.{formula_of};

use term_core::{Formula, Name, Term, Terms};

/// What stands at the top of a formula, with the parts below it.
#[derive(Clone, Copy)]
pub enum Top<'a> {
    Truth,
    Falsity,
    Predicate(&'a Name, &'a Terms),
    Equal(&'a Name, &'a Term, &'a Term),
    Both(&'a Formula, &'a Formula),
    Either(&'a Formula, &'a Formula),
    Implies(&'a Formula, &'a Formula),
    All(&'a Name, &'a Name, &'a Formula),
    Ex(&'a Name, &'a Name, &'a Formula),
}

/// The top of a formula.
#[tactic(auto, using(term_core::proofs::Variants::meanings))]
pub fn top_of(a: &Formula) -> Top<'_>
    ensures { formula_of result ≡ meaning a.now }
{
    match a {
        Formula::True => Top::Truth,
        Formula::False => Top::Falsity,
        Formula::Pred(p, ts) => Top::Predicate(p, ts),
        Formula::Eq(s, t, u) => Top::Equal(s, t, u),
        Formula::And(a, b) => Top::Both(a, b),
        Formula::Or(a, b) => Top::Either(a, b),
        Formula::Imp(a, b) => Top::Implies(a, b),
        Formula::All(s, x, a) => Top::All(s, x, a),
        Formula::Ex(s, x, a) => Top::Ex(s, x, a),
    }
}
