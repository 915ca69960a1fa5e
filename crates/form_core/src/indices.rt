//! That 64 bits hold the indices of what is made.
ghost use Rattle.std.specs.Prelude.{◌≡◌, ◌≤◌, ◌<◌, ◌+◌, ◌-◌, ◌^◌, ℕ, List, length, IfOk, IsOk};
ghost use Rattle.fol_theory.specs.Measures.{depth, height, reach};
ghost use Rattle.term_core.specs.Formula.{meaning};
ghost use Rattle.env_theory.specs.Typing.{WellFormed};
ghost use Rattle.env_theory.specs.Normal.{normal};
ghost use Rattle.env_core.specs.Meaning.{declaration, declarations};
ghost use Rattle.form_core.specs.Binders.{binders_of};

use base_core::NoMemory;
use env_core::{Decl, Env};
use term_core::Formula;

/// Where counted heights stop.
const LIMIT: u64 = 1 << 32;

/// The height of a formula, which is greater than the number of the binders around any place. `NoMemory` where it is 2^32
/// nodes high.
#[tactic(auto, using(crate::proofs::Depths::depth_counted))]
fn binders_in(a: &Formula) -> Result<u64, NoMemory>
    ensures height { IfOk result (λ n. n ≡ height (meaning a.now)) }
    ensures counted { height (meaning a.now) < 2 ^ 32 → IsOk result }
    ensures binders { IfOk result (λ n. depth (meaning a.now) < n) }
    ensures limit { IfOk result (λ n. n < 2 ^ 32) }
{
    let height = a.height();
    if height >= LIMIT {
        return Err(NoMemory);
    }
    Ok(height)
}

/// That 64 bits hold so many variables, the binders around any place of a formula, and one binder more. It is so, and is
/// told, where the formula is less than 2^32 nodes high and the variables and the nodes of that height are fewer than
/// 2^64 - 1 together.
pub fn binder_fits(variables: u64, a: &Formula) -> Result<(), NoMemory>
    ensures fits { IfOk result (λ _. variables + depth (meaning a.now) < 2 ^ 64 - 1) }
    ensures told { height (meaning a.now) < 2 ^ 32 → variables + height (meaning a.now) < 2 ^ 64 - 1 → IsOk result }
{
    let binders = binders_in(a)?;
    if variables >= u64::MAX - binders {
        return Err(NoMemory);
    }
    Ok(())
}

/// That each index of the normal form of a formula under so many variables is below 2^64, as the calls that compare normal
/// forms ask. Else it is want of memory. The normal form isn't made: its height is counted, and where that is too high to
/// be counted the binders of all definitions are.
#[tactic(auto, using(crate::proofs::Depths::normal_reach))]
pub fn normal_fits(env: &Env, variables: u64, a: &Formula) -> Result<(), NoMemory>
    requires { (V : List (List ℕ)) × WellFormed (declarations env.now) V (meaning a.now) × (length V ≤ variables) }
    ensures fits { IfOk result (λ _. reach (normal (declarations env.now) (meaning a.now)) ≤ 2 ^ 64) }
    ensures told { height (normal (declarations env.now) (meaning a.now)) < 2 ^ 32
        → variables + height (normal (declarations env.now) (meaning a.now)) < 2 ^ 64 → IsOk result }
{
    env.environment();
    let binders = normal_binders(env, a)?;
    if variables > u64::MAX - binders {
        return Err(NoMemory);
    }
    Ok(())
}

/// At least as many as the binders around any place of the normal form.
#[tactic(auto, using(crate::proofs::Depths::depth_counted))]
fn normal_binders(env: &Env, a: &Formula) -> Result<u64, NoMemory>
    requires { (V : List (List ℕ)) × WellFormed (declarations env.now) V (meaning a.now) }
    ensures binders { IfOk result (λ n. depth (normal (declarations env.now) (meaning a.now)) ≤ n) }
    ensures counted { height (normal (declarations env.now) (meaning a.now)) < 2 ^ 32 → IsOk result }
    ensures height { height (normal (declarations env.now) (meaning a.now)) < 2 ^ 32
        → IfOk result (λ n. n ≡ height (normal (declarations env.now) (meaning a.now))) }
{
    let size = env.formula_size(a);
    if size.height < LIMIT {
        return Ok(size.height);
    }
    declared_binders(env, a)
}

/// The same without the height: what the definitions can put in at the most.
#[tactic(auto, using(crate::proofs::Depths::normal_depth))]
fn declared_binders(env: &Env, a: &Formula) -> Result<u64, NoMemory>
    ensures { IfOk result (λ n. depth (normal (declarations env.now) (meaning a.now)) ≤ n) }
{
    let mut binders = binders_in(a)?;
    for i in 0..env.len() {
        binders = binders.checked_add(put_in(env.at(i))?).ok_or(NoMemory)?;
    }
    Ok(binders)
}

/// At least as many as the binders around any place of what a declaration puts in.
fn put_in(decl: &Decl) -> Result<u64, NoMemory>
    ensures { IfOk result (λ n. binders_of (declaration decl.now) ≤ n) }
{
    match decl {
        Decl::DefPred { body, .. } => binders_in(body),
        _ => Ok(0),
    }
}
