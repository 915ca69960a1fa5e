//! A row, and its answer.
ghost use Rattle.std.specs.Prelude.{◌≡◌, ◌<◌, IfOk, IfSome};
ghost use Rattle.std.specs.Arc.{arc_value};
ghost use Rattle.fol_theory.specs.Slots.{entries};
ghost use Rattle.term_core.specs.Context.{meaning, slots};
ghost use Rattle.env_core.specs.Meaning.{declarations};
ghost use Rattle.logic_theory.specs.Rules.{Formed, FormedContext};
ghost use Rattle.vern_step.specs.Parsed.{kind_in};
ghost use Rattle.step_core.specs.Standing.{is_open, is_within, state_of};

use crate::evidence::read_out;
use crate::forms::compared;
use crate::rules::push_rule;
use crate::spell::{Unread, formula_at, formula_of};
use base_core::Steps;
use env_core::Env;
use form_core::{well_formed, well_formed_body, with_hypothesis, with_variable};
use kernel_core::check;
use proof_tree::Tree;
use sexp_core::{Sexp, read_text};
use std::alloc::Global;
use std::marker::Brand;
use std::sync::Arc;
use std::sync::ledger::{Blank, Ledger};
use step_core::{Short, Standing0, Verdict, one};
use term_core::{Context, Formula, Name, Sequent};
use vern_step::{Kind, Sentence};

/// What is told of a row.
#[derive(Clone, Copy)]
pub enum Told {
    Declared,
    Refused,
    Anew,
    Proof,
    NoProof,
    NormalForm,
    OtherForm,
    TooLarge,
    Same,
    Different,
    States,
    Fault,
    OtherFault,
    NoFault,
    IllFormed,
    Misspelled,
    NoMemory,
}

impl Told {
    /// Its text.
    pub fn text(self) -> &'static [u8] {
        match self {
            Told::Declared => b"declared",
            Told::Refused => b"refused",
            Told::Anew => b"anew",
            Told::Proof => b"proof",
            Told::NoProof => b"no proof",
            Told::NormalForm => b"normal form",
            Told::OtherForm => b"another form",
            Told::TooLarge => b"too large",
            Told::Same => b"the same",
            Told::Different => b"different",
            Told::States => b"states it",
            Told::Fault => b"this fault",
            Told::OtherFault => b"another fault",
            Told::NoFault => b"no fault",
            Told::IllFormed => b"ill formed",
            Told::Misspelled => b"misspelled",
            Told::NoMemory => b"out of memory",
        }
    }
}

/// What is declared so far.
#[derive(Drop)]
pub struct Trial {
    state: Standing0,
}

impl Trial {
    /// Nothing is declared.
    pub fn new(alloc: Global) -> Trial {
        Trial {
            state: Standing0::start(alloc),
        }
    }

    /// What a row comes to, and what is declared behind it.
    pub fn answer(self, alloc: Global, row: &str) -> (Trial, Told) {
        if row == "reset" {
            return (Trial::new(alloc), Told::Anew);
        }
        if row.as_bytes().first() == Some(&b'(') {
            let told = checked(alloc, self.state.env(), row.as_bytes());
            return (self, told);
        }
        let (state, told) = declared(alloc, self.state, row.as_bytes());
        (Trial { state }, told)
    }
}

/// Declares what a sentence says, where it is good.
fn declared(alloc: Global, state: Standing0, row: &[u8]) -> (Standing0, Told) {
    let Some(sentence) = sentence_of(alloc, row) else {
        return (state, Told::Misspelled);
    };
    let Kind::Plain = sentence.kind() else {
        return (state, Told::Misspelled);
    };
    if state.is_open() {
        return (state, Told::Misspelled);
    }
    match one_sentence::<Brand>(alloc, state, &sentence, Blank::new(1)) {
        Ok((state, Verdict::Good)) => (state, Told::Declared),
        Ok((state, _)) => (state, Told::Refused),
        Err(Short { state }) => (state, Told::NoMemory),
    }
}

/// The sentence of a row.
fn sentence_of(alloc: Global, row: &[u8]) -> Option<Sentence> {
    if row.len() > 65_536 {
        return None;
    }
    Sentence::read(alloc, row).ok()
}

/// Checks a sentence with a counter of its own.
fn one_sentence<L: Ledger>(
    alloc: Global,
    state: Standing0,
    sentence: &Sentence,
    blank: Blank,
) -> Result<(Standing0, Verdict), Short>
    requires name { blank.name ≡ L.name }
    requires parts { blank.parts ≡ L.parts }
    requires whole { 0 < L.parts }
    requires place { is_open (state_of state) ≡ is_within (kind_in sentence.now) }
{
    let mut steps: Steps<L> = Steps::new(blank);
    one(alloc, state, 0, sentence, &mut steps)
}

/// Whether the tree of a row is a proof of its sequent.
fn checked(alloc: Global, env: &Env, row: &[u8]) -> Told {
    match read_text(alloc, row) {
        Ok(Some(value)) => match checked_value(alloc, env, &value) {
            Ok(told) => told,
            Err(Unread::Misspelled) => Told::Misspelled,
            Err(Unread::NoMemory) => Told::NoMemory,
        },
        Ok(None) => Told::Misspelled,
        Err(_) => Told::NoMemory,
    }
}

/// The same of the value: a context, a goal, and a list of rules; or what `read_out` or `compared` reads, which begins
/// with an atom.
fn checked_value(alloc: Global, env: &Env, value: &Sexp) -> Result<Told, Unread> {
    let Sexp::List(parts) = value else {
        return Err(Unread::Misspelled);
    };
    if let Some(Sexp::Atom(word)) = parts.first() {
        return match word.as_slice() {
            b"shows" | b"refuses" | b"states" => read_out(alloc, env, parts.as_slice()),
            _ => compared(alloc, env, parts.as_slice()),
        };
    }
    if parts.len() != 3 {
        return Err(Unread::Misspelled);
    }
    let Some(sequent) = sequent_of(alloc, env, &parts[0], &parts[1])? else {
        return Ok(Told::IllFormed);
    };
    let tree = tree_of(alloc, &parts[2])?;
    let proved = check(alloc, env, &sequent, &tree)?;
    Ok(if proved { Told::Proof } else { Told::NoProof })
}

/// The tree of a list of rules.
fn tree_of(alloc: Global, value: &Sexp) -> Result<Tree, Unread> {
    let Sexp::List(parts) = value else {
        return Err(Unread::Misspelled);
    };
    let mut rules = Vec::new(alloc);
    for part in parts.as_slice() {
        push_rule(&mut rules, alloc, part)?;
    }
    Ok(Tree::from_rules(alloc, rules)?)
}

/// The sequent of a context and a goal, where it is well formed.
fn sequent_of(
    alloc: Global,
    env: &Env,
    context: &Sexp,
    goal: &Sexp,
) -> Result<Option<Arc<Sequent>>, Unread>
    ensures { IfOk result (λ r. IfSome r (λ s. Formed (declarations env.now) (meaning (arc_value s)))) }
{
    let goal = formula_of(goal, alloc)?;
    let Sexp::List(parts) = context else {
        return Err(Unread::Misspelled);
    };
    let Some(context) = context_of(alloc, env, parts.as_slice())? else {
        return Ok(None);
    };
    if !well_formed(&goal, alloc, env, &context)? {
        return Ok(None);
    }
    Ok(Some(Arc::new(
        alloc,
        Sequent {
            context,
            goal: goal.copy()?,
        },
    )?))
}

/// The context of a list of entries, the oldest first, where it is well formed.
fn context_of(alloc: Global, env: &Env, parts: &[Sexp]) -> Result<Option<Context>, Unread>
    ensures { IfOk result (λ r. IfSome r (λ c. FormedContext (declarations env.now) (entries (slots c)))) }
{
    let mut context = Context::Empty;
    for part in parts {
        let Some(longer) = with_entry(alloc, env, &context, part)? else {
            return Ok(None);
        };
        context = longer;
    }
    Ok(Some(context))
}

/// One entry more, where it is well formed: a variable by its sort, or a hypothesis as `(hyp A)`.
fn with_entry(
    alloc: Global,
    env: &Env,
    context: &Context,
    entry: &Sexp,
) -> Result<Option<Context>, Unread>
    requires { FormedContext (declarations env.now) (entries (slots context.now)) }
    ensures { IfOk result (λ r. IfSome r (λ c. FormedContext (declarations env.now) (entries (slots c)))) }
{
    match entry {
        Sexp::Atom(sort) => {
            let sort = Name::from_slice(alloc, sort.as_slice())?;
            if !well_formed_body(&Formula::True, alloc, env, context, &sort)? {
                return Ok(None);
            }
            Ok(Some(with_variable(alloc, context, &sort)?))
        }
        Sexp::List(parts) => {
            let a = formula_at(alloc, parts.as_slice(), 1)?;
            if !well_formed(&a, alloc, env, context)? {
                return Ok(None);
            }
            Ok(Some(with_hypothesis(alloc, context, &a)?))
        }
    }
}
