//! What a lemma states, measured, and the beginning of its proof.
ghost use Rattle.std.specs.Prelude.{◌≡◌, [], None, IfOk};
ghost use Rattle.base_core.specs.Answers.{Answers};
ghost use Rattle.term_core.specs.Formula.{meaning};
ghost use Rattle.env_theory.specs.Declarations.{find};
ghost use Rattle.env_theory.specs.Typing.{WellFormed};
ghost use Rattle.env_core.specs.Meaning.{declarations};
ghost use Rattle.vern_parse.specs.Meaning.{expression, name};
ghost use Rattle.vern_parse.specs.Sentences.{sentence as sentence_of};
ghost use Rattle.vern_step.specs.Parsed.{kind_of};
ghost use Rattle.vern_step.specs.declared.kind.Kind.TheVariants.{Begin};
ghost use Rattle.tactic_theory.specs.States as states;
ghost use Rattle.script_theory.specs.Sentences.{lemma};
ghost use Rattle.proof_state.specs.States as part;
ghost use Rattle.step_core.specs.Proofs.{IsLemma, statement_of};
ghost use Rattle.step_core.specs.Refusals.{refused};
ghost use Rattle.step_core.specs.Steps.{stated_by};

use crate::declare::excess;
use crate::proof::Lemma;
use crate::refusal::Refusal;
use crate::verdict::Fault;
use elab_core::{name_of, statement};
use env_core::Env;
use proof_state::State;
use std::alloc::Global;
use term_core::{Context, Formula, Sequent};
use vern_parse::{RawExpr, RawName};
use vern_step::Raw;

/// The proof that a lemma opens, at its beginning. Nothing of what is stated is too large, neither as it is written nor in
/// its normal form.
pub(crate) fn begun_by(alloc: Global, env: &Env, tree: &Raw) -> Result<Lemma, Refusal>
    requires { kind_of (sentence_of tree.now) ≡ Begin }
    ensures wanted { Answers statement_of refused result (stated_by (declarations env.now) (sentence_of tree.now)) }
    ensures kept { IfOk result (λ l. IsLemma (declarations env.now) l) }
    ensures state { IfOk result (λ l. part.state_of l.state ≡ states.begin (meaning l.formula)) }
    ensures fault { IfOk result (λ l. l.fault ≡ None) }
{
    match tree {
        Raw::Begin(x, raw) => begin(alloc, env, x, raw),
        _ => unreachable!(),
    }
}

/// The same of its parts.
fn begin(alloc: Global, env: &Env, x: &RawName, raw: &RawExpr) -> Result<Lemma, Refusal>
    ensures wanted { Answers statement_of refused result (lemma (declarations env.now) (name x.now) (expression raw.now)) }
    ensures kept { IfOk result (λ l. IsLemma (declarations env.now) l) }
    ensures state { IfOk result (λ l. part.state_of l.state ≡ states.begin (meaning l.formula)) }
    ensures fault { IfOk result (λ l. l.fault ≡ None) }
{
    let formula = stated(alloc, env, x, raw)?;
    let sequent = Sequent {
        context: Context::Empty,
        goal: formula.copy()?,
    };
    let name = name_of(x)?;
    let state = State::begin(alloc, sequent)?;
    Ok(Lemma {
        name,
        formula,
        state,
        fault: None,
    })
}

/// The formula that a lemma states.
fn stated(alloc: Global, env: &Env, x: &RawName, raw: &RawExpr) -> Result<Formula, Refusal>
    ensures wanted { Answers (λ a. (x.now.text, meaning a)) refused result
        (lemma (declarations env.now) (name x.now) (expression raw.now)) }
    ensures new { IfOk result (λ _. find (declarations env.now) x.now.text ≡ None) }
    ensures formed { IfOk result (λ a. WellFormed (declarations env.now) [] (meaning a)) }
{
    env.environment();
    let formula = statement(alloc, env, x, raw)?;
    match excess(env.formula_size(&formula)) {
        None => Ok(formula),
        Some((nodes, height)) => Err(Refusal::Fault(Fault::TooLarge(nodes, height))),
    }
}
