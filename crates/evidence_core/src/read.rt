//! Evidence with the tree of rules that shows what it does.
ghost use Rattle.std.specs.Prelude.{◌≡◌, ◌↔◌, Ok, true, IfOk};
ghost use Rattle.fol_theory.specs.Contexts.{variables};
ghost use Rattle.fol_theory.specs.Slots.{entries};
ghost use Rattle.fol_theory.specs.Syntax.{Formula as Meaning};
ghost use Rattle.term_core.specs.Context.{slots};
ghost use Rattle.term_core.specs.Formula.{meaning};
ghost use Rattle.vern_parse.specs.Meaning.{expression};
ghost use Rattle.env_theory.specs.Normal.{Same};
ghost use Rattle.env_theory.specs.Typing.{WellFormed};
ghost use Rattle.env_core.specs.Meaning.{declarations};
ghost use Rattle.logic_theory.specs.Proofs.{IsProof};
ghost use Rattle.logic_theory.specs.Rules.{FormedContext, seq};
ghost use Rattle.proof_tree.specs.Meaning.{meanings};
ghost use Rattle.tactic_theory.specs.Evidence.{Evidence as Written, is_met};
ghost use Rattle.tactic_theory.specs.Typing.{evidence_of};
ghost use Rattle.evidence_core.specs.Answers.{Tells};
ghost use Rattle.evidence_core.specs.Meaning.{pairs, showing};
ghost use Rattle.evidence_core.specs.Pairs.{AreFormed, AreSame};
ghost use Rattle.evidence_core.specs.Places.{context_of, env_of, IsReady};

use crate::apply::show;
use crate::place::Place;
use crate::shown::Evidence;
use elab_core::ElabFault;
use env_core::Env;
use form_core::count_variables;
use std::alloc::Global;
use term_core::Context;
use vern_parse::RawExpr;

/// What an expression shows as evidence in a context, or its first fault: one of typing, or `NotOfForm` where an
/// argument stands at what is neither a quantifier over all nor an implication. A premise that differs from what is
/// given for it is no fault, but a pair of `must`.
pub fn evidence(
    alloc: Global,
    env: &Env,
    context: &Context,
    raw: &RawExpr,
) -> Result<Evidence, ElabFault>
    requires { FormedContext (declarations env.now) (entries (slots context.now)) }
    ensures answer { Tells showing (declarations env.now) (slots context.now) result
        (evidence_of (declarations env.now) (slots context.now) (expression raw.now)) }
    ensures met { IfOk result (λ made. (e : Written) → evidence_of (declarations env.now) (slots context.now) (expression raw.now) ≡ Ok e
        → (is_met (declarations env.now) (slots context.now) e ≡ true) ↔ AreSame (declarations env.now) (pairs made.must.items)) }
    ensures proved { IfOk result (λ made. AreSame (declarations env.now) (pairs made.must.items)
        → (g : Meaning) → Same (declarations env.now) (meaning made.formula) g
        → IsProof (declarations env.now) (meanings made.tree) (seq (entries (slots context.now)) g)) }
    ensures formed { IfOk result (λ made. WellFormed (declarations env.now) (variables (entries (slots context.now))) (meaning made.formula)) }
    ensures pairs_formed { IfOk result (λ made. AreFormed (declarations env.now) (variables (entries (slots context.now)))
        (pairs made.must.items)) }
{
    env.environment();
    let variables = count_variables(context)?;
    let place = Place {
        alloc,
        env,
        context,
        variables,
    };
    read(raw, &place)
}

/// The same at a place.
fn read(raw: &RawExpr, place: &Place<'_>) -> Result<Evidence, ElabFault>
    requires { IsReady place.now }
    ensures { Tells showing (env_of place.now) (context_of place.now) result
        (evidence_of (env_of place.now) (context_of place.now) (expression raw.now)) }
{
    let draft = show(raw, place)?;
    draft.finish(place.alloc)
}
