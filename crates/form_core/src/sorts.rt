//! The sorts of terms.
ghost use Rattle.std.specs.Prelude.{◌≡◌, ◌↔◌, ℕ, List, IsTrue, MatchOption};
ghost use Rattle.fol_theory.specs.Contexts.{variables};
ghost use Rattle.fol_theory.specs.Slots.{entries};
ghost use Rattle.term_core.specs.Context.{slots};
ghost use Rattle.term_core.specs.Term.{meaning, list_meaning};
ghost use Rattle.env_theory.specs.Declarations.{find};
ghost use Rattle.env_theory.specs.Typing.{At, Gives, HasSort, HaveSorts, IsPredicate, IsSort, takes};
ghost use Rattle.env_core.specs.Meaning.{declaration, declarations};
ghost use Rattle.env_core.specs.Sorts.{sorts_as};

use env_core::{Decl, Env, Sorts};
use term_core::{Context, Name, Slot, Term};

/// The sort of a variable of the context, or None exactly where there is no such variable.
pub(crate) fn sort_of(context: &Context, index: u64) -> Option<&Name>
    ensures { MatchOption result ((s : List ℕ) → At (variables (entries (slots context.now))) index s → ⊥)
        (λ n. At (variables (entries (slots context.now))) index n.now) }
{
    let mut left = index;
    let mut at = context;
    while let Some((slot, older)) = at.newest() {
        if let Slot::Var { sort, .. } = slot {
            if left == 0 {
                return Some(sort);
            }
            left -= 1;
        }
        at = older;
    }
    None
}

/// Whether a name is declared as a sort.
pub(crate) fn is_sort(env: &Env, name: &Name) -> bool
    ensures { IsTrue result ↔ IsSort (find (declarations env.now) name.now) }
{
    match env.find(name) {
        Some(Decl::Sort { .. }) => true,
        _ => false,
    }
}

/// A function: the sorts of its arguments, and of its value.
#[derive(Clone, Copy)]
pub(crate) struct Function<'a> {
    sorts: Sorts<'a>,
    value: &'a Name,
}

/// The function of a name, or None exactly where none is declared.
fn function_of<'a>(env: &'a Env, name: &Name) -> Option<Function<'a>>
    ensures { MatchOption result ((s : List ℕ) → Gives (find (declarations env.now) name.now) s → ⊥)
        (λ f. Gives (find (declarations env.now) name.now) f.value.now
        × (takes (find (declarations env.now) name.now) ≡ sorts_as f.sorts)) }
{
    match env.find(name) {
        Some(Decl::Fun { sorts, result, .. }) => Some(Function {
            sorts: Sorts::Names(sorts),
            value: result,
        }),
        Some(Decl::DefFun { params, result, .. }) => Some(Function {
            sorts: Sorts::Params(params),
            value: result,
        }),
        _ => None,
    }
}

/// The sorts of the arguments of the predicate of a name, or None exactly where none is declared.
pub(crate) fn predicate_of<'a>(env: &'a Env, name: &Name) -> Option<Sorts<'a>>
    ensures { MatchOption result (IsPredicate (find (declarations env.now) name.now) → ⊥)
        (λ ss. IsPredicate (find (declarations env.now) name.now)
        × (takes (find (declarations env.now) name.now) ≡ sorts_as ss)) }
{
    match env.find(name) {
        Some(Decl::Pred { sorts, .. }) => Some(Sorts::Names(sorts)),
        Some(Decl::DefPred { params, .. }) => Some(Sorts::Params(params)),
        _ => None,
    }
}

/// Whether a term has a sort over the environment and the variables of the context.
#[cycle(sort)]
pub fn has_sort(t: &Term, env: &Env, context: &Context, sort: &Name) -> bool
    ensures { IsTrue result
        ↔ HasSort (declarations env.now) (variables (entries (slots context.now))) (meaning t.now) sort.now }
{
    match t {
        Term::Var(i) => match sort_of(context, *i) {
            None => false,
            Some(found) => found.same(sort),
        },
        Term::App(f, ts) => match function_of(env, f) {
            None => false,
            Some(function) => function.value.same(sort)
                && have_sorts(ts.as_slice(), env, context, function.sorts),
        },
    }
}

/// Whether there are as many terms as sorts, each of its own.
#[cycle(sort)]
pub(crate) fn have_sorts(ts: &[Term], env: &Env, context: &Context, sorts: Sorts<'_>) -> bool
    ensures { IsTrue result ↔ HaveSorts (declarations env.now) (variables (entries (slots context.now)))
        (list_meaning ts.now) (sorts_as sorts.entry) }
{
    if ts.len() != sorts.len() {
        return false;
    }
    for i in 0..ts.len() {
        if !has_sort(&ts[i], env, context, sorts.at(i)) {
            return false;
        }
    }
    true
}
