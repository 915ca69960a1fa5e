//! Limits on nodes, tested by a walk that ends where a limit is passed.
ghost use Rattle.std.specs.Prelude.{◌≡◌, ◌+◌, ◌<◌, MatchOption};
ghost use Rattle.fol_theory.specs.Measures.{nodes, term_nodes, terms_nodes};
ghost use Rattle.term_core.specs.Formula.{meaning};
ghost use Rattle.term_core.specs.Term as term;

use crate::{Formula, Term};

impl Formula {
    /// What is left of so many nodes behind this formula; None where it has more. At most `left` nodes are looked at,
    /// and no memory is taken.
    #[tactic(auto, using(crate::proofs::Variants::sizes))]
    pub fn spend(&self, left: u64) -> Option<u64>
        ensures { MatchOption result (left < nodes (meaning self.now)) (λ r. r + nodes (meaning self.now) ≡ left) }
    {
        if left == 0 {
            return None;
        }
        let left = left - 1;
        match self {
            Formula::True | Formula::False => Some(left),
            Formula::Pred(_, ts) => spend_all(ts.as_slice(), left),
            Formula::Eq(_, t, u) => {
                let left = t.spend(left)?;
                u.spend(left)
            }
            Formula::And(a, b) | Formula::Or(a, b) | Formula::Imp(a, b) => {
                let left = a.spend(left)?;
                b.spend(left)
            }
            Formula::All(_, _, a) | Formula::Ex(_, _, a) => a.spend(left),
        }
    }
}

impl Term {
    /// What is left of so many nodes behind this term; None where it has more. At most `left` nodes are looked at, and
    /// no memory is taken.
    #[cycle(spend)]
    #[tactic(auto, using(crate::proofs::Applications::term_measures))]
    pub fn spend(&self, left: u64) -> Option<u64>
        ensures { MatchOption result (left < term_nodes (term.meaning self.now)) (λ r. r + term_nodes (term.meaning self.now) ≡ left) }
    {
        if left == 0 {
            return None;
        }
        match self {
            Term::Var(_) => Some(left - 1),
            Term::App(_, ts) => spend_all(ts.as_slice(), left - 1),
        }
    }
}

#[cycle(spend)]
fn spend_all(ts: &[Term], left: u64) -> Option<u64>
    ensures { MatchOption result (left < terms_nodes (term.list_meaning ts.now)) (λ r. r + terms_nodes (term.list_meaning ts.now) ≡ left) }
{
    let mut rest = left;
    for t in ts {
        rest = t.spend(rest)?;
    }
    Some(rest)
}
