//! Formulas that are too large.
ghost use Rattle.std.specs.Prelude.{◌≡◌, map};
ghost use Rattle.env_core.specs.Meaning.{declarations};
ghost use Rattle.logic_theory.specs.Rules.{Every};
ghost use Rattle.script_theory.specs.Sizes as theory;
ghost use Rattle.tactic_theory.specs.Refinements.{first_large};
ghost use Rattle.term_core.specs.Formula.{meaning};
ghost use Rattle.tac_base.specs.Openings.{IsFormula};

use env_core::{Env, Tally};
use term_core::Formula;

/// Nodes and height of a formula where it passes a limit, else of its normal form where that does.
#[tactic(auto, using(crate::proofs::Measured::sizes))]
fn large(env: &Env, a: &Formula) -> Option<(u64, u64)>
    requires { IsFormula (declarations env.now) (meaning a.now) }
    ensures { result ≡ theory.large (declarations env.now) (meaning a.now) }
{
    let written = Tally {
        nodes: a.size(),
        height: a.height(),
    };
    if written.passes() {
        return Some((written.nodes, written.height));
    }
    let normal = env.formula_size(a);
    if normal.passes() {
        return Some((normal.nodes, normal.height));
    }
    None
}

/// The same of the first of these that is too large.
pub(crate) fn first_large(env: &Env, formulas: &[Formula]) -> Option<(u64, u64)>
    requires { Every (IsFormula (declarations env.now)) (map meaning formulas.now) }
    ensures { result ≡ first_large (theory.large (declarations env.now)) (map meaning formulas.now) }
{
    for a in formulas {
        match large(env, a) {
            Some(found) => return Some(found),
            None => {}
        }
    }
    None
}
