//! Evidence applied to arguments, one after another.
ghost use Rattle.std.specs.Prelude.{◌≡◌, map, ℕ, List};
ghost use Rattle.base_core.specs.Answers.{and_then};
ghost use Rattle.fol_theory.specs.Syntax.{implies, all};
ghost use Rattle.term_core.specs.Formula.{meaning};
ghost use Rattle.term_core.specs.Term as term_meaning;
ghost use Rattle.vern_grammar.specs.Trees.{expressions};
ghost use Rattle.vern_parse.specs.Meaning.{expression, name};
ghost use Rattle.env_theory.specs.Heads.{head_form};
ghost use Rattle.elab_theory.specs.Expressions.{of_sort, span_of, term_of};
ghost use Rattle.elab_theory.specs.Locals.{locals_in};
ghost use Rattle.elab_core.specs.Faults.{Gives};
ghost use Rattle.tactic_theory.specs.Evidence.{Evidence};
ghost use Rattle.tactic_theory.specs.Typing.{evidence_of, with_arguments};
ghost use Rattle.evidence_core.specs.Answers.{Leaves, Tells};
ghost use Rattle.evidence_core.specs.Meaning.{so_far};
ghost use Rattle.evidence_core.specs.Places.{context_of, env_of, IsReady};
ghost use Rattle.evidence_core.specs.Showings.{applied, begun, Comes};

use crate::draft::Draft;
use crate::place::Place;
use crate::start::begin;
use elab_core::{ElabFault, span_of_tree, term};
use term_core::{Formula, Name, Term};
use vern_parse::{RawExpr, RawName};

/// What an expression shows as evidence.
#[cycle(show)]
pub(crate) fn show(raw: &RawExpr, place: &Place<'_>) -> Result<Draft, ElabFault>
    requires { IsReady place.now }
    ensures { Tells so_far (env_of place.now) (context_of place.now) result
        (evidence_of (env_of place.now) (context_of place.now) (expression raw.now)) }
{
    match raw {
        RawExpr::App(x, ys, _) => show_applied(x, ys, place),
        _ => Err(ElabFault::WrongKind(span_of_tree(raw))),
    }
}

/// What a name shows with its arguments.
#[cycle(show)]
fn show_applied(x: &RawName, ys: &[RawExpr], place: &Place<'_>) -> Result<Draft, ElabFault>
    requires { IsReady place.now }
    ensures { Tells so_far (env_of place.now) (context_of place.now) result
        (and_then (begun (env_of place.now) (context_of place.now) (name x.now))
        (λ e. with_arguments (env_of place.now) (context_of place.now) (expressions (map expression ys.now)) e)) }
{
    let mut draft = begin(x, place)?;
    apply_all(ys, place, &mut draft)?;
    Ok(draft)
}

/// Applies evidence to arguments.
#[cycle(show)]
fn apply_all(ys: &[RawExpr], place: &Place<'_>, draft: &mut Draft) -> Result<(), ElabFault>
    requires ready { IsReady place.now }
    requires shown { (e : Evidence) × Comes (env_of place.now) (context_of place.now) e (so_far draft.old) }
    ensures { (e : Evidence) → Comes (env_of place.now) (context_of place.now) e (so_far draft.old)
        → Leaves so_far (env_of place.now) (context_of place.now) draft.new result
        (with_arguments (env_of place.now) (context_of place.now) (expressions (map expression ys.now)) e) }
{
    for y in ys {
        apply(y, place, draft)?;
    }
    Ok(())
}

/// Applies evidence to an argument: to a term where its head form is a quantifier, to evidence where it is an
/// implication.
#[cycle(show)]
fn apply(y: &RawExpr, place: &Place<'_>, draft: &mut Draft) -> Result<(), ElabFault>
    requires ready { IsReady place.now }
    requires shown { (e : Evidence) × Comes (env_of place.now) (context_of place.now) e (so_far draft.old) }
    ensures { (e : Evidence) → Comes (env_of place.now) (context_of place.now) e (so_far draft.old)
        → Leaves so_far (env_of place.now) (context_of place.now) draft.new result
        (applied (env_of place.now) (context_of place.now) e (expression y.now)) }
{
    let head = place.env.head_form(&draft.formula)?;
    apply_head(y, place, &head, draft)
}

/// The same with the head form at hand.
#[cycle(show)]
fn apply_head(
    y: &RawExpr,
    place: &Place<'_>,
    head: &Formula,
    draft: &mut Draft,
) -> Result<(), ElabFault>
    requires ready { IsReady place.now }
    requires shown { (e : Evidence) × Comes (env_of place.now) (context_of place.now) e (so_far draft.old) }
    requires head { head_form (env_of place.now) (meaning draft.old.formula) ≡ meaning head.now }
    ensures { (e : Evidence) → Comes (env_of place.now) (context_of place.now) e (so_far draft.old)
        → Leaves so_far (env_of place.now) (context_of place.now) draft.new result
        (applied (env_of place.now) (context_of place.now) e (expression y.now)) }
{
    match head {
        Formula::All(sort, _, body) => apply_to_term(y, place, sort, body, draft),
        Formula::Imp(premise, conclusion) => {
            apply_to_proof(y, place, premise, conclusion, draft)
        }
        _ => Err(ElabFault::NotOfForm),
    }
}

/// Applies what shows a quantifier of this sort and body to a term.
fn apply_to_term(
    y: &RawExpr,
    place: &Place<'_>,
    sort: &Name,
    body: &Formula,
    draft: &mut Draft,
) -> Result<(), ElabFault>
    requires ready { IsReady place.now }
    requires shown { (e : Evidence) × Comes (env_of place.now) (context_of place.now) e (so_far draft.old) }
    requires head { (x : List ℕ) × (head_form (env_of place.now) (meaning draft.old.formula) ≡ all sort.now x (meaning body.now)) }
    ensures { (e : Evidence) → Comes (env_of place.now) (context_of place.now) e (so_far draft.old)
        → Leaves so_far (env_of place.now) (context_of place.now) draft.new result
        (applied (env_of place.now) (context_of place.now) e (expression y.now)) }
{
    let t = term_of_sort(y, place, sort)?;
    draft.put_term(place.alloc, place.variables, sort, body, &t)?;
    Ok(())
}

/// Applies what shows that the premise implies the conclusion to evidence.
#[cycle(show)]
fn apply_to_proof(
    y: &RawExpr,
    place: &Place<'_>,
    premise: &Formula,
    conclusion: &Formula,
    draft: &mut Draft,
) -> Result<(), ElabFault>
    requires ready { IsReady place.now }
    requires head { head_form (env_of place.now) (meaning draft.old.formula) ≡ implies (meaning premise.now) (meaning conclusion.now) }
    ensures { (e : Evidence) → Comes (env_of place.now) (context_of place.now) e (so_far draft.old)
        → Leaves so_far (env_of place.now) (context_of place.now) draft.new result
        (applied (env_of place.now) (context_of place.now) e (expression y.now)) }
{
    let mut given = show(y, place)?;
    draft.put_proof(premise, conclusion, &mut given)?;
    Ok(())
}

/// A term of a sort.
fn term_of_sort(y: &RawExpr, place: &Place<'_>, sort: &Name) -> Result<Term, ElabFault>
    ensures { Gives (λ t. term_meaning.meaning t) result
        (and_then (term_of (env_of place.now) (locals_in (context_of place.now)) (expression y.now))
        (of_sort sort.now (span_of (expression y.now)))) }
{
    let (t, found) = term(place.alloc, place.env, place.context, y)?;
    if &found == sort {
        Ok(t)
    } else {
        Err(ElabFault::WrongSort(span_of_tree(y)))
    }
}
