//! Names that are taken, names that are fresh, and hypotheses by name.
ghost use Rattle.std.specs.Prelude.{◌≡◌, ◌++◌, decimal, true, IfOk};
ghost use Rattle.env_core.specs.Meaning.{declarations};
ghost use Rattle.tactic_theory.specs.Names as theory;
ghost use Rattle.term_core.specs.Context.{slots};

use base_core::{NoMemory, SharedBytes};
use env_core::Env;
use itoa::Buffer;
use std::alloc::Global;
use term_core::{Context, Name, Slot};

/// Whether the context has the name or the environment declares it.
#[tactic(auto, using(crate::proofs::Taken::taking))]
pub fn is_taken(env: &Env, context: &Context, name: &Name) -> bool
    ensures { result ≡ theory.is_taken (declarations env.now) (slots context.now) name.now }
{
    match context.find(name) {
        Some(_) => true,
        None => env.find(name).is_some(),
    }
}

/// The name itself, or followed by the least number with which it isn't taken.
#[tactic(auto, using(crate::proofs::Taken::fresh_kept))]
pub fn fresh(alloc: Global, env: &Env, context: &Context, name: &Name) -> Result<Name, NoMemory>
    ensures { IfOk result (λ n. n ≡ theory.fresh (declarations env.now) (slots context.now) name.now) }
{
    if is_taken(env, context, name) {
        return first_free(alloc, env, context, name);
    }
    name.copy()
}

/// A name followed by the least number with which it isn't taken.
fn first_free(alloc: Global, env: &Env, context: &Context, name: &Name) -> Result<Name, NoMemory>
    requires { theory.is_taken (declarations env.now) (slots context.now) name.now ≡ true }
    ensures { IfOk result (λ n. n ≡ theory.fresh (declarations env.now) (slots context.now) name.now) }
{
    for k in 0..u64::MAX {
        let candidate = numbered(alloc, name, k)?;
        if !is_taken(env, context, &candidate) {
            return Ok(candidate);
        }
    }
    Err(NoMemory)
}

/// A name with a number behind it.
fn numbered(alloc: Global, name: &Name, number: u64) -> Result<Name, NoMemory>
    ensures { IfOk result (λ n. n ≡ name.now ++ decimal number) }
{
    let mut buffer = Buffer::new();
    let digits = buffer.format(number);
    let mut bytes = name.as_slice().to_vec(alloc)?;
    bytes.extend_from_slice(digits.as_bytes())?;
    let bytes = SharedBytes::from_vec(bytes)?;
    Ok(Name::from_shared(bytes))
}

/// The number of the hypothesis with this name, counted from the oldest, from 0; None exactly where the newest entry of
/// that name is none.
pub fn hypothesis_named(context: &Context, name: &Name) -> Option<u64>
    ensures { result ≡ theory.hypothesis_named (slots context.now) name.now }
{
    match context.find(name) {
        None => None,
        Some((slot, older)) => match slot {
            Slot::Var { .. } => None,
            Slot::Hyp { .. } => Some(older.count()),
        },
    }
}
