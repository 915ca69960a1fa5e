//! The name that evidence begins with.
ghost use Rattle.std.specs.Prelude.{◌≡◌, ◌<◌, [], ◌∷◌, ℕ, List, Option, Some, IfOk};
ghost use Rattle.fol_theory.specs.Contexts.{count, IsHypothesis};
ghost use Rattle.fol_theory.specs.Slots.{Slot as SlotMeaning, entries};
ghost use Rattle.fol_theory.specs.Syntax.{Formula as Meaning};
ghost use Rattle.vern_parse.specs.Meaning.{name as raw_name};
ghost use Rattle.env_theory.specs.Declarations.{Declaration, find, name_of};
ghost use Rattle.env_core.specs.Meaning.{declaration, declarations};
ghost use Rattle.elab_theory.specs.Locals.{declared as known_declared, declared_or_not};
ghost use Rattle.logic_theory.specs.Rules.{hyp, step};
ghost use Rattle.tactic_theory.specs.Typing.{start};
ghost use Rattle.evidence_core.specs.Answers.{Tells};
ghost use Rattle.evidence_core.specs.Meaning.{so_far};
ghost use Rattle.evidence_core.specs.Places.{context_of, env_of, IsReady};
ghost use Rattle.evidence_core.specs.Showings.{begun};

use crate::draft::Draft;
use crate::place::Place;
use base_core::NoMemory;
use elab_core::ElabFault;
use env_core::{Decl, Env};
use form_core::shifted;
use proof_tree::Rule;
use std::alloc::Global;
use term_core::{Name, Slot};
use vern_parse::RawName;

/// The evidence that a name is: the newest entry of the context, if it is a hypothesis; else what is stated under it.
pub(crate) fn begin(x: &RawName, place: &Place<'_>) -> Result<Draft, ElabFault>
    requires { IsReady place.now }
    ensures { Tells so_far (env_of place.now) (context_of place.now) result (begun (env_of place.now) (context_of place.now) (raw_name x.now)) }
{
    let name = Name::from_shared(x.text.share()?);
    match place.context.find(&name) {
        None => global(place.alloc, x, place.env, &name),
        Some((slot, older)) => match slot {
            Slot::Var { .. } => Err(ElabFault::WrongKind(x.span)),
            Slot::Hyp { .. } => {
                let number = older.count();
                Ok(hypothesis(place, number)?)
            }
        },
    }
}

/// The hypothesis with this number, as it stands under all variables.
fn hypothesis(place: &Place<'_>, number: u64) -> Result<Draft, NoMemory>
    requires ready { IsReady place.now }
    requires below { number < count (entries (context_of place.now)) }
    ensures { IfOk result (λ d. (a : Meaning) × IsHypothesis (entries (context_of place.now)) number a
        × (so_far d ≡ record { formula = a; tree = step (hyp number) ∷ []; pairs = []; hypothesis = Some number })) }
{
    match place.context.hypothesis(number)? {
        None => unreachable!(),
        Some((formula, newer)) => {
            let shown = shifted(place.alloc, place.variables, formula, newer)?;
            Draft::of(place.alloc, shown, Rule::Hyp(number), Some(number))
        }
    }
}

/// What is stated under a name that no entry of the context has.
fn global(alloc: Global, x: &RawName, env: &Env, name: &Name) -> Result<Draft, ElabFault>
    ensures { (c : List SlotMeaning) (o : Option ℕ) → Tells so_far (declarations env.now) c result
        (start (declared_or_not (find (declarations env.now) name.now)) (raw_name x.now) o) }
{
    match env.find(name) {
        None => Err(ElabFault::UnknownName(x.span)),
        Some(decl) => stated(alloc, x, decl),
    }
}

/// What a declaration states.
fn stated(alloc: Global, x: &RawName, decl: &Decl) -> Result<Draft, ElabFault>
    ensures { (E : List Declaration) (c : List SlotMeaning) (o : Option ℕ)
        → find E (name_of (declaration decl.now)) ≡ Some (declaration decl.now)
        → Tells so_far E c result (start (known_declared (declaration decl.now)) (raw_name x.now) o) }
{
    match decl {
        Decl::Stated { name, formula } => {
            let rule = Rule::Stated(name.copy()?);
            Ok(Draft::of(alloc, formula.copy()?, rule, None)?)
        }
        _ => Err(ElabFault::WrongKind(x.span)),
    }
}
