//! Rows of evidence, and of what a lemma states.
ghost use Rattle.std.specs.Prelude.{◌∷◌, IfOk, IfSome};
ghost use Rattle.fol_theory.specs.Contexts.{variables};
ghost use Rattle.fol_theory.specs.Slots.{entries};
ghost use Rattle.term_core.specs.Context.{slot_meaning, slots};
ghost use Rattle.term_core.specs.Formula.{meaning};
ghost use Rattle.env_theory.specs.Typing.{WellFormed};
ghost use Rattle.env_core.specs.Meaning.{declarations};
ghost use Rattle.logic_theory.specs.Rules.{FormedContext};

use crate::rows::Told;
use crate::spell::{Unread, formula_at, name_at, number_of, word_at};
use base_core::NoMemory;
use elab_core::{ElabFault, statement};
use env_core::Env;
use evidence_core::{Evidence, evidence};
use form_core::{well_formed, well_formed_body};
use kernel_core::check;
use proof_tree::Rule;
use sexp_core::Sexp;
use std::alloc::Global;
use term_core::{Context, Formula, Sequent, Slot};
use vern_lex::{Span, tokens};
use vern_parse::{Raw, RawTac, parse};

/// What a row comes to whose first atom is `shows`, `refuses` or `states`.
pub fn read_out(alloc: Global, env: &Env, parts: &[Sexp]) -> Result<Told, Unread> {
    match word_at(parts, 0)? {
        b"shows" => shows(alloc, env, parts),
        b"refuses" => refuses(alloc, env, parts),
        _ => states(alloc, env, parts),
    }
}

/// Whether the evidence of a sentence shows the row's formula, by a tree and with premises of the row's signs; and
/// then, whether the tree is a proof of it.
fn shows(alloc: Global, env: &Env, parts: &[Sexp]) -> Result<Told, Unread> {
    let Some(context) = context_at(alloc, env, parts, 1)? else {
        return Ok(Told::IllFormed);
    };
    let text = word_at(parts, 2)?;
    let formula = formula_at(alloc, parts, 3)?;
    let expected = word_at(parts, 4)?;
    let read = tokens(alloc, text)?;
    let Ok(Raw::Refinement(RawTac::Exact(a))) = parse(alloc, &read, text) else {
        return Err(Unread::Misspelled);
    };
    match evidence(alloc, env, &context, &a) {
        Ok(shown) => {
            let signs = signs(alloc, &shown)?;
            if !shown.formula.same(&formula) || signs.as_slice() != expected {
                return Ok(Told::OtherForm);
            }
            proves(alloc, env, context, shown)
        }
        Err(ElabFault::NoMemory) => Err(Unread::NoMemory),
        Err(_) => Ok(Told::Refused),
    }
}

/// Whether the tree of evidence is a proof of what it shows.
fn proves(alloc: Global, env: &Env, context: Context, shown: Evidence) -> Result<Told, Unread>
    requires context { FormedContext (declarations env.now) (entries (slots context)) }
    requires goal { WellFormed (declarations env.now) (variables (entries (slots context))) (meaning shown.formula) }
{
    let sequent = Sequent {
        context,
        goal: shown.formula,
    };
    let proved = check(alloc, env, &sequent, &shown.tree)?;
    Ok(if proved { Told::Proof } else { Told::NoProof })
}

/// The rules of evidence, `A` for a quantifier with a term, `I` for an implication, `S` for what is stated and a digit for
/// a hypothesis; then `=` for each pair of one formula, and `!` for each other pair; and behind `@` the hypothesis that
/// it is.
fn signs(alloc: Global, shown: &Evidence) -> Result<Vec<u8>, NoMemory> {
    let mut text = Vec::new(alloc);
    for rule in &shown.tree.rules(alloc)? {
        text.push(match rule {
            Rule::AllE(_, _, _) => b'A',
            Rule::ImpE(_) => b'I',
            Rule::Stated(_) => b'S',
            Rule::Hyp(i) => digit(*i),
            _ => b'?',
        })?;
    }
    for pair in &shown.must {
        let alike = pair.premise.same(&pair.given);
        text.push(if alike { b'=' } else { b'!' })?;
    }
    if let Some(i) = shown.hypothesis {
        text.push(b'@')?;
        text.push(digit(i))?;
    }
    Ok(text)
}

/// The digit of a number below 4.
fn digit(i: u64) -> u8 {
    match i {
        0 => b'0',
        1 => b'1',
        2 => b'2',
        3 => b'3',
        _ => b'?',
    }
}

/// Whether what a sentence says has the row's fault, at the row's offset.
fn refuses(alloc: Global, env: &Env, parts: &[Sexp]) -> Result<Told, Unread> {
    let Some(context) = context_at(alloc, env, parts, 1)? else {
        return Ok(Told::IllFormed);
    };
    let text = word_at(parts, 2)?;
    let words = word_at(parts, 3)?;
    let Some(from) = number_of(word_at(parts, 4)?) else {
        return Err(Unread::Misspelled);
    };
    let read = tokens(alloc, text)?;
    let found = match parse(alloc, &read, text) {
        Ok(Raw::Refinement(RawTac::Exact(a))) => evidence(alloc, env, &context, &a).err(),
        Ok(Raw::Begin(x, a)) => statement(alloc, env, &x, &a).err(),
        _ => return Err(Unread::Misspelled),
    };
    match found {
        None => Ok(Told::NoFault),
        Some(ElabFault::NoMemory) => Err(Unread::NoMemory),
        Some(fault) => {
            let (its_words, its_from) = told_fault(fault);
            let alike = its_words == words && its_from == from;
            Ok(if alike { Told::Fault } else { Told::OtherFault })
        }
    }
}

/// A fault in a word, with where it begins.
fn told_fault(fault: ElabFault) -> (&'static [u8], u64) {
    match fault {
        ElabFault::UnknownName(span) => at(b"unknown", span),
        ElabFault::WrongKind(span) => at(b"kind", span),
        ElabFault::WrongSort(span) => at(b"sort", span),
        ElabFault::WrongArity(span) => at(b"arity", span),
        ElabFault::AlreadyDeclared(span) => at(b"declared", span),
        ElabFault::NotOfForm => (b"form", 0),
        ElabFault::TooLarge(nodes, _) => (b"large", nodes),
        ElabFault::NoMemory => (b"memory", 0),
    }
}

fn at(word: &'static [u8], span: Span) -> (&'static [u8], u64) {
    (word, span.from)
}

/// Whether a lemma states the row's formula.
fn states(alloc: Global, env: &Env, parts: &[Sexp]) -> Result<Told, Unread> {
    let text = word_at(parts, 1)?;
    let formula = formula_at(alloc, parts, 2)?;
    let read = tokens(alloc, text)?;
    let Ok(Raw::Begin(x, a)) = parse(alloc, &read, text) else {
        return Err(Unread::Misspelled);
    };
    match statement(alloc, env, &x, &a) {
        Ok(stated) => Ok(if stated.same(&formula) {
            Told::States
        } else {
            Told::OtherForm
        }),
        Err(ElabFault::NoMemory) => Err(Unread::NoMemory),
        Err(_) => Ok(Told::Refused),
    }
}

/// The context at a place of a list, where it is well formed.
fn context_at(alloc: Global, env: &Env, parts: &[Sexp], i: usize) -> Result<Option<Context>, Unread>
    ensures { IfOk result (λ r. IfSome r (λ c. FormedContext (declarations env.now) (entries (slots c)))) }
{
    match parts.get(i) {
        Some(Sexp::List(entries)) => named_context(alloc, env, entries.as_slice()),
        _ => Err(Unread::Misspelled),
    }
}

/// The context of a list of entries with names, the oldest first, where it is well formed.
fn named_context(alloc: Global, env: &Env, parts: &[Sexp]) -> Result<Option<Context>, Unread>
    ensures { IfOk result (λ r. IfSome r (λ c. FormedContext (declarations env.now) (entries (slots c)))) }
{
    let mut context = Context::Empty;
    for part in parts {
        let Some(slot) = slot_of(alloc, env, &context, part)? else {
            return Ok(None);
        };
        context = context.push(alloc, slot)?;
    }
    Ok(Some(context))
}

/// One entry, where it is well formed: a variable as `(var x T)`, or a hypothesis as `(hyp h A)`.
fn slot_of(
    alloc: Global,
    env: &Env,
    context: &Context,
    entry: &Sexp,
) -> Result<Option<Slot>, Unread>
    requires { FormedContext (declarations env.now) (entries (slots context.now)) }
    ensures { IfOk result (λ r. IfSome r (λ s. FormedContext (declarations env.now) (entries (slot_meaning s ∷ slots context.now)))) }
{
    let Sexp::List(parts) = entry else {
        return Err(Unread::Misspelled);
    };
    let parts = parts.as_slice();
    match word_at(parts, 0)? {
        b"var" => {
            let name = name_at(alloc, parts, 1)?;
            let sort = name_at(alloc, parts, 2)?;
            if !well_formed_body(&Formula::True, alloc, env, context, &sort)? {
                return Ok(None);
            }
            Ok(Some(Slot::Var { name, sort }))
        }
        _ => {
            let name = name_at(alloc, parts, 1)?;
            let a = formula_at(alloc, parts, 2)?;
            if !well_formed(&a, alloc, env, context)? {
                return Ok(None);
            }
            let formula = a.copy()?;
            Ok(Some(Slot::Hyp { name, formula }))
        }
    }
}
