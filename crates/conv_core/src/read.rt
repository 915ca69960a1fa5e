//! Normal forms of terms and formulas in scopes.
ghost use Rattle.std.specs.Prelude.{◌≡◌, ℕ, IfOk};
ghost use Rattle.term_core.specs.Term.{meaning, list_meaning};
ghost use Rattle.std.specs.Arc.{arc_slice_items};
ghost use Rattle.env_theory.specs.Typing.{Environment};
ghost use Rattle.env_theory.specs.Scopes.{value, values};
ghost use Rattle.env_core.specs.Meaning.{declarations};
ghost use Rattle.conv_core.specs.Frames.{scope_of};
ghost use Rattle.conv_core.specs.Heads.{Standing, StandingAll};

use crate::frame::Frame;
use crate::head::{Head, head_of};
use base_core::NoMemory;
use env_core::Env;
use std::alloc::Global;
use std::sync::ArcSlice;
use term_core::{Term, Terms};

/// The normal form of a term in a scope. Nothing else is made.
#[cycle(read)]
pub fn read_term<'a>(
    alloc: Global,
    env: &'a Env,
    frames: &mut Vec<Frame<'a>>,
    scope: usize,
    by: u64,
    t: &'a Term,
) -> Result<Term, NoMemory>
    requires environment { Environment (declarations env.now) }
    requires standing { Standing (declarations env.now) frames.old.items scope by (meaning t.now) }
    ensures value { IfOk result (λ n. meaning n ≡ value (declarations env.now) (scope_of frames.old.items scope) by (meaning t.now)) }
    ensures frames { IfOk result (λ n. frames.new.items ≡ frames.old.items) }
{
    let kept = frames.len();
    match head_of(env, frames, scope, by, t)? {
        Head::Variable(j) => {
            frames.truncate(kept);
            Ok(Term::Var(j))
        }
        Head::Function(f, ts, inner, binders) => {
            let made = read_terms(alloc, env, frames, inner, binders, ts)?;
            frames.truncate(kept);
            Ok(Term::App(f.copy()?, made))
        }
    }
}

/// The normal forms of terms in a scope.
#[cycle(read)]
pub(crate) fn read_terms<'a>(
    alloc: Global,
    env: &'a Env,
    frames: &mut Vec<Frame<'a>>,
    scope: usize,
    by: u64,
    ts: &'a [Term],
) -> Result<Terms, NoMemory>
    requires environment { Environment (declarations env.now) }
    requires standing { StandingAll (declarations env.now) frames.old.items scope by (list_meaning ts.now) }
    ensures values { IfOk result (λ n. list_meaning (arc_slice_items n)
        ≡ values (declarations env.now) (scope_of frames.old.items scope) by (list_meaning ts.now)) }
    ensures frames { IfOk result (λ n. frames.new.items ≡ frames.old.items) }
{
    let mut made = Vec::with_capacity(alloc, ts.len())?;
    for t in ts {
        made.push(read_term(alloc, env, frames, scope, by, t)?)?;
    }
    Ok(ArcSlice::from_vec(made)?)
}
