//! Comparing the heads of two terms.
ghost use Rattle.std.specs.Prelude.{◌≡◌, IfOk};
ghost use Rattle.term_core.specs.Term.{meaning};
ghost use Rattle.env_theory.specs.Typing.{Environment};
ghost use Rattle.env_core.specs.Meaning.{declarations};
ghost use Rattle.conv_core.specs.declared.pair.Pair.TheVariants.{Terms};
ghost use Rattle.conv_core.specs.Frames.{Ordered, Extends};
ghost use Rattle.conv_core.specs.Pairs.{StandingPair, pair_of, Split, Pushed};

use crate::frame::Frame;
use crate::head::{Head, head_of};
use crate::pair::{Pair, TermPair};
use base_core::NoMemory;
use env_core::Env;
use term_core::Term;

/// Compares two heads, and leaves what is to be compared below them.
pub fn split_terms<'a>(
    env: &'a Env,
    frames: &mut Vec<Frame<'a>>,
    stack: &mut Vec<Pair<'a>>,
    pair: &TermPair<'a>,
) -> Result<bool, NoMemory>
    requires environment { Environment (declarations env.now) }
    requires standing { StandingPair (declarations env.now) frames.old.items (Terms pair.now) }
    ensures ordered { IfOk result (λ r. Ordered frames.new.items) }
    ensures extends { IfOk result (λ r. Extends frames.old.items frames.new.items) }
    ensures split { IfOk result (Split (declarations env.now)
        (pair_of frames.old.items (Terms pair.now)) frames.new.items stack.old.items stack.new.items) }
{
    let first = head_of(env, frames, pair.first_scope, pair.first_by, pair.first)?;
    let second = head_of(env, frames, pair.second_scope, pair.second_by, pair.second)?;
    match first {
        Head::Variable(i) => match second {
            Head::Variable(j) => { if i == j { Ok(true) } else { Ok(false) } }
            Head::Function(_, _, _, _) => Ok(false),
        },
        Head::Function(f, ts, k, b) => match second {
            Head::Variable(_) => Ok(false),
            Head::Function(g, us, l, e) => {
                if f.same(g) {
                    push_sides(stack, k, b, ts, l, e, us)
                } else {
                    Ok(false)
                }
            }
        },
    }
}

/// Leaves arguments to be compared one by one, if there are as many.
pub fn push_sides<'a>(
    stack: &mut Vec<Pair<'a>>,
    first_scope: usize,
    first_by: u64,
    ts: &'a [Term],
    second_scope: usize,
    second_by: u64,
    us: &'a [Term],
) -> Result<bool, NoMemory>
    ensures { IfOk result (Pushed first_scope first_by ts.now second_scope second_by us.now stack.old.items stack.new.items) }
{
    if ts.len() != us.len() {
        return Ok(false);
    }
    let mut i = 0;
    while i < ts.len() {
        stack.push(Pair::Terms(TermPair {
            first_scope,
            first_by,
            first: &ts[i],
            second_scope,
            second_by,
            second: &us[i],
        }))?;
        i += 1;
    }
    Ok(true)
}
