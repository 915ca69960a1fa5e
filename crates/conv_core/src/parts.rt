//! Comparing the heads of two formulas.
ghost use Rattle.std.specs.Prelude.{◌≡◌, ◌+◌, ◌∷◌, [], ◌++◌, length, IfOk, OnOk};
ghost use Rattle.std.specs.Arc.{arc_value};
ghost use Rattle.term_core.specs.Formula.{meaning};
ghost use Rattle.env_theory.specs.Typing.{Environment};
ghost use Rattle.env_core.specs.Meaning.{declarations};
ghost use Rattle.conv_core.specs.declared.frame.Frame.TheVariants.{Under};
ghost use Rattle.conv_core.specs.declared.pair.Pair.{Pair};
ghost use Rattle.conv_core.specs.declared.pair.Pair.TheVariants.{Formulas};
ghost use Rattle.conv_core.specs.Frames.{Ordered, Extends};
ghost use Rattle.conv_core.specs.Pairs.{StandingPair, pair_of, Split, SplitTops, Left, IsPair, IsFormulaPair};

use crate::formula::formula_head;
use crate::frame::Frame;
use crate::pair::{FormulaPair, Pair, TermPair};
use crate::terms::push_sides;
use base_core::NoMemory;
use env_core::Env;
use std::sync::Arc;
use term_core::{Formula, Term};

/// Compares two heads, and leaves what is to be compared below them.
pub fn split_formulas<'a>(
    env: &'a Env,
    frames: &mut Vec<Frame<'a>>,
    stack: &mut Vec<Pair<'a>>,
    pair: &FormulaPair<'a>,
) -> Result<bool, NoMemory>
    requires environment { Environment (declarations env.now) }
    requires standing { StandingPair (declarations env.now) frames.old.items (Formulas pair.now) }
    ensures ordered { IfOk result (λ r. Ordered frames.new.items) }
    ensures extends { IfOk result (λ r. Extends frames.old.items frames.new.items) }
    ensures split { IfOk result (Split (declarations env.now)
        (pair_of frames.old.items (Formulas pair.now)) frames.new.items stack.old.items stack.new.items) }
{
    let first = formula_head(env, frames, pair.first_scope, pair.first)?;
    let second = formula_head(env, frames, pair.second_scope, pair.second)?;
    split_tops(
        frames,
        stack,
        first.scope,
        first.formula,
        second.scope,
        second.formula,
    )
}

/// The same where no definition is left at the heads.
fn split_tops<'a>(
    frames: &mut Vec<Frame<'a>>,
    stack: &mut Vec<Pair<'a>>,
    c: usize,
    a: &'a Formula,
    d: usize,
    b: &'a Formula,
) -> Result<bool, NoMemory>
    ensures { IfOk result (SplitTops frames.old.items c (meaning a.now) d (meaning b.now) frames.new.items stack.old.items
        stack.new.items) }
{
    match (a, b) {
        (Formula::True, Formula::True) => Ok(true),
        (Formula::False, Formula::False) => Ok(true),
        (Formula::Pred(p, ts), Formula::Pred(q, us)) => {
            if !p.same(q) {
                return Ok(false);
            }
            push_sides(stack, c, 0, ts.as_slice(), d, 0, us.as_slice())
        }
        (Formula::Eq(s, t, u), Formula::Eq(r, v, w)) => {
            if !s.same(r) {
                return Ok(false);
            }
            push_equation(stack, c, t, u, d, v, w)?;
            Ok(true)
        }
        (Formula::And(e, f), Formula::And(g, h)) => {
            push_parts(stack, c, e, f, d, g, h)?;
            Ok(true)
        }
        (Formula::Or(e, f), Formula::Or(g, h)) => {
            push_parts(stack, c, e, f, d, g, h)?;
            Ok(true)
        }
        (Formula::Imp(e, f), Formula::Imp(g, h)) => {
            push_parts(stack, c, e, f, d, g, h)?;
            Ok(true)
        }
        (Formula::All(s, _, e), Formula::All(r, _, g)) => {
            if !s.same(r) {
                return Ok(false);
            }
            push_below(frames, stack, c, e, d, g)?;
            Ok(true)
        }
        (Formula::Ex(s, _, e), Formula::Ex(r, _, g)) => {
            if !s.same(r) {
                return Ok(false);
            }
            push_below(frames, stack, c, e, d, g)?;
            Ok(true)
        }
        _ => Ok(false),
    }
}

/// Leaves the sides of two equations to be compared.
fn push_equation<'a>(
    stack: &mut Vec<Pair<'a>>,
    c: usize,
    t: &'a Term,
    u: &'a Term,
    d: usize,
    v: &'a Term,
    w: &'a Term,
) -> Result<(), NoMemory>
    ensures { OnOk result (Left stack.old.items stack.new.items (IsPair c 0 t.now d 0 v.now) (IsPair c 0 u.now d 0 w.now)) }
{
    push_terms(stack, c, t, d, v)?;
    push_terms(stack, c, u, d, w)
}

/// Leaves the parts of two connectives to be compared.
fn push_parts<'a>(
    stack: &mut Vec<Pair<'a>>,
    c: usize,
    e: &'a Arc<Formula>,
    f: &'a Arc<Formula>,
    d: usize,
    g: &'a Arc<Formula>,
    h: &'a Arc<Formula>,
) -> Result<(), NoMemory>
    ensures { OnOk result (Left stack.old.items stack.new.items (IsFormulaPair c (arc_value e.now) d (arc_value g.now))
        (IsFormulaPair c (arc_value f.now) d (arc_value h.now))) }
{
    push_formulas(stack, c, e, d, g)?;
    push_formulas(stack, c, f, d, h)
}

/// Leaves the bodies of two quantifiers to be compared.
fn push_below<'a>(
    frames: &mut Vec<Frame<'a>>,
    stack: &mut Vec<Pair<'a>>,
    c: usize,
    e: &'a Arc<Formula>,
    d: usize,
    g: &'a Arc<Formula>,
) -> Result<(), NoMemory>
    ensures frames { OnOk result (frames.new.items ≡ frames.old.items ++ (Under c ∷ Under d ∷ [])) }
    ensures stack { OnOk result ((x : Pair) × (stack.new.items ≡ stack.old.items ++ (x ∷ []))
        × IsFormulaPair (length frames.old.items + 1) (arc_value e.now) (length frames.old.items + 2) (arc_value g.now) x) }
{
    frames.push(Frame::Under(c))?;
    let first = frames.len();
    frames.push(Frame::Under(d))?;
    push_formulas(stack, first, e, frames.len(), g)
}

/// Leaves two formulas to be compared.
fn push_formulas<'a>(
    stack: &mut Vec<Pair<'a>>,
    first_scope: usize,
    first: &'a Formula,
    second_scope: usize,
    second: &'a Formula,
) -> Result<(), NoMemory>
    ensures { OnOk result ((x : Pair) × (stack.new.items ≡ stack.old.items ++ (x ∷ []))
        × IsFormulaPair first_scope first.now second_scope second.now x) }
{
    stack.push(Pair::Formulas(FormulaPair {
        first_scope,
        first,
        second_scope,
        second,
    }))?;
    Ok(())
}

/// Leaves two terms to be compared.
fn push_terms<'a>(
    stack: &mut Vec<Pair<'a>>,
    first_scope: usize,
    first: &'a Term,
    second_scope: usize,
    second: &'a Term,
) -> Result<(), NoMemory>
    ensures { OnOk result ((x : Pair) × (stack.new.items ≡ stack.old.items ++ (x ∷ []))
        × IsPair first_scope 0 first.now second_scope 0 second.now x) }
{
    stack.push(Pair::Terms(TermPair {
        first_scope,
        first_by: 0,
        first,
        second_scope,
        second_by: 0,
        second,
    }))?;
    Ok(())
}
