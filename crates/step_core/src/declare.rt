//! What a declaration or a definition declares, measured.
ghost use Rattle.std.specs.Prelude.{◌≡◌, ℕ, ◌^◌, min, List, None, Result, IfOk};
ghost use Rattle.std.specs.Result.{ForOk};
ghost use Rattle.base_core.specs.Answers.{Answers};
ghost use Rattle.vern_parse.specs.Sentences.{sentence as sentence_of};
ghost use Rattle.vern_step.specs.Parsed.{kind_of};
ghost use Rattle.vern_step.specs.declared.kind.Kind.TheVariants.{Plain};
ghost use Rattle.env_theory.specs.Declarations.{Declaration};
ghost use Rattle.env_theory.specs.Typing.{Declares, Environment};
ghost use Rattle.env_core.specs.Meaning.{declaration, declarations};
ghost use Rattle.elab_theory.specs.Faults.{Fault as TypingFault};
ghost use Rattle.elab_core.specs.Answers.{Declares as Types};
ghost use Rattle.script_theory.specs.Sizes.{measured};
ghost use Rattle.step_core.specs.Refusals.{refused};
ghost use Rattle.step_core.specs.Steps.{IsNew, declared_by, normal_excess, within};

use crate::refusal::Refusal;
use crate::verdict::Fault;
use elab_core::{ElabFault, declaration, definition};
use env_core::{Decl, Env, Tally};
use std::alloc::Global;
use vern_step::Raw;

/// What a declaration or a definition declares. Nothing of it is too large, neither as it is written nor in its normal
/// form.
pub(crate) fn declared_by(alloc: Global, env: &Env, tree: &Raw) -> Result<Decl, Refusal>
    requires plain { kind_of (sentence_of tree.now) ≡ Plain }
    requires environment { Environment (declarations env.now) }
    ensures wanted { Answers declaration refused result (declared_by (declarations env.now) (sentence_of tree.now)) }
    ensures new { IfOk result (λ d. IsNew (declarations env.now) (declaration d)) }
{
    match tree {
        Raw::Declare(x, y) => judge(env, declaration(alloc, env, x, y)),
        Raw::Define(x, groups, sort, body) => judge(
            env,
            definition(alloc, env, x, groups, sort.as_ref(), body),
        ),
        _ => unreachable!(),
    }
}

/// What was typed, unless its normal form is too large.
#[tactic(auto, using(crate::proofs::Judging::judging))]
fn judge(env: &Env, typed: Result<Decl, ElabFault>) -> Result<Decl, Refusal>
    requires { ForOk typed (λ d. Declares (declarations env.now) (declaration d)) }
    ensures { (w : Result Declaration TypingFault) → Types typed w → Answers declaration refused result (within (declarations env.now) w) }
{
    match typed {
        Ok(decl) => match normal_excess(env, &decl) {
            None => Ok(decl),
            Some((nodes, height)) => Err(Refusal::Fault(Fault::TooLarge(nodes, height))),
        },
        Err(fault) => Err(Refusal::from(fault)),
    }
}

/// The nodes and the height of the normal form of what is declared, where one of them passes its limit.
fn normal_excess(env: &Env, decl: &Decl) -> Option<(u64, u64)>
    requires { Declares (declarations env.now) (declaration decl.now) }
    ensures { result ≡ normal_excess (declarations env.now) (declaration decl.now) }
{
    match decl {
        Decl::Sort { .. } | Decl::Fun { .. } | Decl::Pred { .. } => None,
        Decl::Stated { formula, .. } => excess(env.formula_size(formula)),
        Decl::DefFun { body, .. } => excess(env.term_size(body)),
        Decl::DefPred { body, .. } => excess(env.formula_size(body)),
    }
}

/// Two numbers of which one passes its limit.
#[tactic(auto, using(crate::proofs::Measured::cut))]
pub(crate) fn excess(size: Tally) -> Option<(u64, u64)>
    ensures { (n h : ℕ) → size.nodes ≡ min n (2 ^ 32) → size.height ≡ min h (2 ^ 32) → result ≡ measured n h None }
{
    if size.passes() {
        Some((size.nodes, size.height))
    } else {
        None
    }
}
