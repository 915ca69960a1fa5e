//! Whether a name stands somewhere.
ghost use Rattle.std.specs.Prelude.{◌≡◌};
ghost use Rattle.tactic_theory.specs.Refinements as theory;
ghost use Rattle.term_core.specs.Formula.{meaning};
ghost use Rattle.term_core.specs.Term as term;

use term_core::{Formula, Name, Term};

/// Whether a function or a predicate of this name stands in a formula.
#[cycle(mentions)]
#[tactic(auto, using(crate::proofs::Mentioned::formulas))]
pub(crate) fn mentions(a: &Formula, name: &Name) -> bool
    ensures { result ≡ theory.mentions name.now (meaning a.now) }
{
    match a {
        Formula::True | Formula::False => false,
        Formula::Pred(p, ts) => p == name || terms_mention(ts.as_slice(), name),
        Formula::Eq(_, t, u) => term_mentions(t, name) || term_mentions(u, name),
        Formula::And(b, c) => mentions(b, name) || mentions(c, name),
        Formula::Or(b, c) => mentions(b, name) || mentions(c, name),
        Formula::Imp(b, c) => mentions(b, name) || mentions(c, name),
        Formula::All(_, _, b) => mentions(b, name),
        Formula::Ex(_, _, b) => mentions(b, name),
    }
}

/// Whether a function of this name stands in a term.
#[cycle(term_mentions)]
#[tactic(auto, using(crate::proofs::Mentioned::terms))]
fn term_mentions(t: &Term, name: &Name) -> bool
    ensures { result ≡ theory.term_mentions name.now (term.meaning t.now) }
{
    match t {
        Term::Var(_) => false,
        Term::App(f, ts) => f == name || terms_mention(ts.as_slice(), name),
    }
}

/// Whether one stands in any of these terms.
#[cycle(term_mentions)]
fn terms_mention(ts: &[Term], name: &Name) -> bool
    ensures { result ≡ theory.terms_mention name.now (term.list_meaning ts.now) }
{
    for t in ts {
        if term_mentions(t, name) {
            return true;
        }
    }
    false
}
