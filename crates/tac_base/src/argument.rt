//! Evidence at a site, and sameness of formulas.
ghost use Rattle.std.specs.Prelude.{◌↔◌, IfOk, IsTrue};
ghost use Rattle.fol_theory.specs.Contexts.{variables};
ghost use Rattle.fol_theory.specs.Slots.{entries};
ghost use Rattle.env_theory.specs.Normal.{Same};
ghost use Rattle.env_theory.specs.Typing.{WellFormed};
ghost use Rattle.term_core.specs.Formula.{meaning};
ghost use Rattle.vern_parse.specs.Meaning.{expression};
ghost use Rattle.tactic_theory.specs.Typing.{evidence_of};
ghost use Rattle.evidence_core.specs.Meaning.{pairs};
ghost use Rattle.evidence_core.specs.Pairs.{AreFormed, AreSame};
ghost use Rattle.tac_base.specs.Given.{Reads};
ghost use Rattle.tac_base.specs.Sites.{env_of, goal_at, IsReady};

use crate::fault::TacFault;
use crate::site::Site;
use base_core::NoMemory;
use conv_core::same;
use evidence_core::{Evidence, Pair, evidence};
use form_core::normal_fits;
use term_core::Formula;
use vern_parse::RawExpr;

/// What an expression shows as evidence, or its first fault.
pub fn given(site: &Site<'_>, raw: &RawExpr) -> Result<Evidence, TacFault>
    requires { IsReady site.now }
    ensures { Reads (env_of site.now) (goal_at site.now).slots result
        (evidence_of (env_of site.now) (goal_at site.now).slots (expression raw.now)) }
{
    let made = evidence(site.alloc, site.env, &site.goal.context, raw)?;
    Ok(made)
}

/// Whether two formulas are the same.
pub fn is_same(site: &Site<'_>, a: &Formula, b: &Formula) -> Result<bool, NoMemory>
    requires ready { IsReady site.now }
    requires first { WellFormed (env_of site.now) (variables (entries (goal_at site.now).slots)) (meaning a.now) }
    requires second { WellFormed (env_of site.now) (variables (entries (goal_at site.now).slots)) (meaning b.now) }
    ensures { IfOk result (λ r. IsTrue r ↔ Same (env_of site.now) (meaning a.now) (meaning b.now)) }
{
    normal_fits(site.env, site.variables, a)?;
    normal_fits(site.env, site.variables, b)?;
    same(site.alloc, site.env, a, b)
}

/// Whether the formulas of each pair are the same.
pub fn are_same(site: &Site<'_>, must: &[Pair]) -> Result<bool, NoMemory>
    requires ready { IsReady site.now }
    requires formed { AreFormed (env_of site.now) (variables (entries (goal_at site.now).slots)) (pairs must.now) }
    ensures { IfOk result (λ r. IsTrue r ↔ AreSame (env_of site.now) (pairs must.now)) }
{
    for pair in must {
        if !is_same(site, &pair.premise, &pair.given)? {
            return Ok(false);
        }
    }
    Ok(true)
}
