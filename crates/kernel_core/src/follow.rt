//! Going through a tree's rules.
ghost use Rattle.std.specs.Prelude.{◌≡◌, ◌↔◌, ◌+◌, ◌≤◌, [], ◌∷◌, List, length, map, IfOk, IsTrue};
ghost use Rattle.term_core.specs.Context as context;
ghost use Rattle.env_core.specs.Meaning.{declarations};
ghost use Rattle.logic_theory.specs.Rules as theory;
ghost use Rattle.proof_tree.specs.Meaning.{meaning, meanings};
ghost use Rattle.proof_tree.specs.Places.{IndicesFit};
ghost use Rattle.proof_tree.specs.Stacks.{waiting};
ghost use Rattle.logic_theory.specs.Proofs.{IsProof, Proves};
ghost use Rattle.kernel_core.specs.Sites.{environment, sequent_at, AsksRule, IsReadyAt};
ghost use Rattle.kernel_core.specs.Stacks.{AreReady, IsReady, TakesRule};

use crate::rules::{
    all_e, all_i, and_e, and_i, conv, cut, drop_hypothesis, eq_e, eq_i, ex_e, ex_i, hyp, imp_e,
    imp_i, or_e, or_i1, or_i2, stated, true_i,
};
use crate::site::Site;
use base_core::NoMemory;
use env_core::Env;
use form_core::{binder_fits, count_variables};
use proof_tree::{Rule, Tree, push_children};
use std::alloc::Global;
use term_core::Sequent;

/// Whether the tree is a proof of the sequent, whatever the tree. Where it is, the sequent has a derivation.
pub fn check(alloc: Global, env: &Env, sequent: &Sequent, tree: &Tree) -> Result<bool, NoMemory>
    requires { theory.Formed (declarations env.now) (context.meaning sequent.now) }
    ensures proof { IfOk result (λ r. IsTrue r
        ↔ IsProof (declarations env.now) (meanings tree.now) (context.meaning sequent.now)) }
    ensures derivation { IfOk result (λ r. IsTrue r → theory.Holds (declarations env.now) (context.meaning sequent.now)) }
{
    let rules = tree.rules(alloc)?;
    let variables = count_variables(&sequent.context)?;
    let proved = follow(alloc, env, &rules, sequent.copy()?, variables)?;
    Ok(proved)
}

/// Whether rules in preorder are a proof of a sequent that has so many variables. Each rule adds one at the most, so no
/// context is gone through to bound their number.
fn follow(
    alloc: Global,
    env: &Env,
    rules: &[&Rule],
    place: Sequent,
    variables: u64,
) -> Result<bool, NoMemory>
    requires { IsReady (declarations env.now) variables (context.meaning place) }
    ensures { IfOk result (λ r. IsTrue r
        ↔ IsProof (declarations env.now) (meanings (map (λ r. r.now) rules.now)) (context.meaning place)) }
{
    let mut stack = Vec::new(alloc);
    stack.push(place)?;
    let mut most = variables;
    for i in 0..rules.len() {
        if !next(alloc, env, rules[i], most, &mut stack)? {
            return Ok(false);
        }
        most = most.checked_add(1).ok_or(NoMemory)?;
    }
    Ok(is_done(&stack))
}

/// Whether nothing is left to be shown.
fn is_done(stack: &Vec<Sequent>) -> bool
    ensures { IsTrue result ↔ (stack.now.items ≡ []) }
{
    stack.is_empty()
}

/// Whether a rule may be used at the sequent on top of the stack, which its children take the place of. No sequent there
/// has more variables than `most`.
fn next(
    alloc: Global,
    env: &Env,
    rule: &Rule,
    most: u64,
    stack: &mut Vec<Sequent>,
) -> Result<bool, NoMemory>
    requires { AreReady (declarations env.now) most (waiting stack.old.items) }
    ensures ready { IfOk result (λ r. IsTrue r → AreReady (declarations env.now) (most + 1) (waiting stack.new.items)) }
    ensures proves { IfOk result (λ r. (rs : List theory.Rule)
        → (IsTrue r × Proves (declarations env.now) rs (waiting stack.new.items))
        ↔ Proves (declarations env.now) (meaning rule.now ∷ rs) (waiting stack.old.items)) }
{
    match stack.pop() {
        None => Ok(false),
        Some(place) => {
            let site = Site {
                alloc,
                env,
                place: &place,
                most,
            };
            let used = apply(&site, rule, stack)?;
            Ok(used)
        }
    }
}

/// Whether a rule may be used at a site; if so, its children are put on the stack.
fn apply(site: &Site<'_>, rule: &Rule, stack: &mut Vec<Sequent>) -> Result<bool, NoMemory>
    requires { IsReadyAt site.now }
    ensures { IfOk result (TakesRule (environment site.now) (meaning rule.now) (sequent_at site.now)
        (waiting stack.old.items) (waiting stack.new.items)) }
{
    if !may_use(site, rule)? {
        return Ok(false);
    }
    indices_fit(site, rule)?;
    push_children(site.alloc, site.place, rule, stack)?;
    Ok(true)
}

/// Whether a rule may be used at a site. An open leaf shows nothing.
fn may_use(site: &Site<'_>, rule: &Rule) -> Result<bool, NoMemory>
    requires { IsReadyAt site.now }
    ensures { IfOk result (λ r. IsTrue r ↔ AsksRule (environment site.now) (meaning rule.now) (sequent_at site.now)) }
{
    match rule {
        Rule::Leaf(_) => Ok(false),
        Rule::Hyp(number) => hyp(site, *number),
        Rule::Stated(name) => stated(site, name),
        Rule::TrueI => true_i(site),
        Rule::FalseE => Ok(true),
        Rule::AndI(a, b) => and_i(site, a, b),
        Rule::AndE(a, b) => and_e(site, a, b),
        Rule::OrI1(a, b) => or_i1(site, a, b),
        Rule::OrI2(a, b) => or_i2(site, a, b),
        Rule::OrE(a, b) => or_e(site, a, b),
        Rule::ImpI(a, b) => imp_i(site, a, b),
        Rule::ImpE(a) => imp_e(site, a),
        Rule::AllI(sort, body) => all_i(site, sort, body),
        Rule::AllE(sort, body, t) => all_e(site, sort, body, t),
        Rule::ExI(sort, body, t) => ex_i(site, sort, body, t),
        Rule::ExE(sort, body) => ex_e(site, sort, body),
        Rule::EqI(sort, t) => eq_i(site, sort, t),
        Rule::EqE(sort, body, t, u) => eq_e(site, sort, body, t, u),
        Rule::Cut(a) => cut(site, a),
        Rule::Drop(number) => drop_hypothesis(site, *number),
        Rule::Conv(a) => conv(site, a),
    }
}

/// That 64 bits hold the indices of what a rule makes at a site where it may be used.
fn indices_fit(site: &Site<'_>, rule: &Rule) -> Result<(), NoMemory>
    requires ready { IsReadyAt site.now }
    requires asked { AsksRule (environment site.now) (meaning rule.now) (sequent_at site.now) }
    ensures { IfOk result (λ _. IndicesFit (meaning rule.now) (sequent_at site.now)) }
{
    match rule {
        Rule::ExI(_, body, _) => binder_fits(site.most, body),
        Rule::EqE(_, body, _, _) => binder_fits(site.most, body),
        Rule::ExE(_, _) => binder_fits(site.most, &site.place.goal),
        _ => Ok(()),
    }
}
