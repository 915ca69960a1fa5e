//! What names stand for.
ghost use Rattle.std.specs.Prelude.{◌≡◌, map, IfOk};
ghost use Rattle.vern_parse.specs.Meaning.{name};
ghost use Rattle.env_core.specs.Meaning.{declarations, declaration, parameter};
ghost use Rattle.env_core.specs.Sorts.{sorts_as};
ghost use Rattle.elab_theory.specs.Locals.{known as known_in, declared, declared_or_not, locals_in};
ghost use Rattle.elab_theory.specs.Expressions.{sort_at};
ghost use Rattle.elab_theory.specs.Sentences.{locals_of};
ghost use Rattle.env_theory.specs.Declarations.{find};
ghost use Rattle.term_core.specs.Context.{slots};
ghost use Rattle.elab_core.specs.Scopes.{known_as, locals, past};
ghost use Rattle.elab_core.specs.Faults.{Gives};
ghost use Rattle.elab_core.specs.Checked.{formula_head, term_head};
ghost use Rattle.elab_core.specs.Heads.{head_as};

use crate::ElabFault;
use base_core::NoMemory;
use env_core::{Decl, Env, Parameter, Sorts};
use term_core::{Context, Name, Slot};
use vern_parse::RawName;

/// What a name stands for: a variable by its index, with its sort; a hypothesis; what is declared; nothing.
#[derive(Clone, Copy)]
pub enum Known<'a> {
    Bound(u64, &'a Name),
    Assumed,
    Declared(&'a Decl),
    Unknown,
}

/// The name that stands in a sentence, which shares the bytes.
pub fn name_of(x: &RawName) -> Result<Name, NoMemory>
    ensures { IfOk result (λ n. n ≡ x.now.text) }
{
    Ok(Name::from_shared(x.text.share()?))
}

/// The newest binder of the name, else what it is outside. `NoMemory` comes only where 64 bits don't hold an index.
pub fn look_up<'a>(
    env: &'a Env,
    context: &'a Context,
    binders: &'a [Parameter],
    name: &Name,
) -> Result<Known<'a>, NoMemory>
    ensures { IfOk result (λ k. known_as k ≡ known_in (declarations env.now) (locals context.now binders.now) name.now) }
{
    let mut i = binders.len();
    let mut variables: u64 = 0;
    'binders: while i > 0 {
        i -= 1;
        let binder = &binders[i];
        if &binder.name == name {
            return Ok(Known::Bound(variables, &binder.sort));
        }
        variables += 1;
    }
    known_outside(env, context, variables, name)
}

/// The newest slot of the context, else what is declared. So many variables are inside.
#[tactic(auto, using(crate::proofs::Scoped::looking))]
fn known_outside<'a>(
    env: &'a Env,
    context: &'a Context,
    inside: u64,
    name: &Name,
) -> Result<Known<'a>, NoMemory>
    ensures { IfOk result (λ k. known_as k ≡ past inside (known_in (declarations env.now) (locals_in (slots context.now)) name.now)) }
{
    let mut variables: u64 = inside;
    let mut at = context;
    while let Some((slot, older)) = at.newest() {
        match slot {
            Slot::Var {
                name: variable,
                sort,
            } => {
                if variable == name {
                    return Ok(Known::Bound(variables, sort));
                }
                variables = variables.checked_add(1).ok_or(NoMemory)?;
            }
            Slot::Hyp {
                name: hypothesis,
                ..
            } => {
                if hypothesis == name {
                    return Ok(Known::Assumed);
                }
            }
        }
        at = older;
    }
    Ok(known_globally(env, name))
}

/// What is declared.
fn known_globally<'a>(env: &'a Env, name: &Name) -> Known<'a>
    ensures { known_as result ≡ declared_or_not (find (declarations env.now) name.now) }
{
    match env.find(name) {
        Some(d) => Known::Declared(d),
        None => Known::Unknown,
    }
}

/// That a name stands for a sort.
pub fn expect_sort(known: Known<'_>, x: &RawName) -> Result<(), ElabFault>
    ensures { Gives (λ _. x.now.text) result (sort_at (known_as known.entry) (name x.now)) }
{
    match known {
        Known::Declared(Decl::Sort { .. }) => Ok(()),
        Known::Unknown => Err(ElabFault::UnknownName(x.span)),
        _ => Err(ElabFault::WrongKind(x.span)),
    }
}

/// The same under parameters alone.
#[tactic(auto, using(crate::proofs::Bound::looking))]
pub fn expect_sort_under(env: &Env, params: &[Parameter], x: &RawName) -> Result<(), ElabFault>
    ensures { Gives (λ _. x.now.text) result
        (sort_at (known_in (declarations env.now) (locals_of (map parameter params.now)) x.now.text) (name x.now)) }
{
    let sort = name_of(x)?;
    expect_sort(look_up(env, &Context::Empty, params, &sort)?, x)
}

/// The head of a term: a variable with its sort, or a function with the sorts of its arguments and of its value.
#[derive(Clone, Copy)]
pub enum Head<'a> {
    Variable(u64, &'a Name),
    Function(Sorts<'a>, &'a Name),
}

/// A name at the head of a term, with so many arguments.
pub fn head_of_term<'a>(known: Known<'a>, x: &RawName, count: usize) -> Result<Head<'a>, ElabFault>
    ensures { Gives head_as result (term_head (known_as known.entry) (name x.now) count) }
{
    match known {
        Known::Bound(i, sort) => {
            if count == 0 {
                Ok(Head::Variable(i, sort))
            } else {
                Err(ElabFault::WrongArity(x.span))
            }
        }
        Known::Assumed => Err(ElabFault::WrongKind(x.span)),
        Known::Unknown => Err(ElabFault::UnknownName(x.span)),
        Known::Declared(d) => declared_head(d, x, count),
    }
}

#[tactic(auto, using(env_core::proofs::Sorted::counting))]
fn declared_head<'a>(d: &'a Decl, x: &RawName, count: usize) -> Result<Head<'a>, ElabFault>
    ensures { Gives head_as result (term_head (declared (declaration d.now)) (name x.now) count) }
{
    match d {
        Decl::Fun { sorts, result, .. } => {
            if count == sorts.len() {
                Ok(Head::Function(Sorts::Names(sorts), result))
            } else {
                Err(ElabFault::WrongArity(x.span))
            }
        }
        Decl::DefFun { params, result, .. } => {
            if count == params.len() {
                Ok(Head::Function(Sorts::Params(params), result))
            } else {
                Err(ElabFault::WrongArity(x.span))
            }
        }
        _ => Err(ElabFault::WrongKind(x.span)),
    }
}

/// A name at the head of a formula, with so many arguments: their sorts.
pub fn head_of_formula<'a>(
    known: Known<'a>,
    x: &RawName,
    count: usize,
) -> Result<Sorts<'a>, ElabFault>
    ensures { Gives sorts_as result (formula_head (known_as known.entry) (name x.now) count) }
{
    match known {
        Known::Bound(..) | Known::Assumed => Err(ElabFault::WrongKind(x.span)),
        Known::Unknown => Err(ElabFault::UnknownName(x.span)),
        Known::Declared(d) => declared_predicate(d, x, count),
    }
}

#[tactic(auto, using(env_core::proofs::Sorted::counting))]
fn declared_predicate<'a>(d: &'a Decl, x: &RawName, count: usize) -> Result<Sorts<'a>, ElabFault>
    ensures { Gives sorts_as result (formula_head (declared (declaration d.now)) (name x.now) count) }
{
    match d {
        Decl::Pred { sorts, .. } => {
            if count == sorts.len() {
                Ok(Sorts::Names(sorts))
            } else {
                Err(ElabFault::WrongArity(x.span))
            }
        }
        Decl::DefPred { params, .. } => {
            if count == params.len() {
                Ok(Sorts::Params(params))
            } else {
                Err(ElabFault::WrongArity(x.span))
            }
        }
        _ => Err(ElabFault::WrongKind(x.span)),
    }
}
