//! What is left of a formula while it is stripped. A premise stays as it was taken off, and is shifted past the newer open
//! variables once, at the end.
ghost use Rattle.std.specs.Prelude.{◌≡◌, ◌≤◌, ◌+◌, ℕ, List, [], length, map, IfOk, OnOk};
ghost use Rattle.std.specs.List.{All};
ghost use Rattle.env_core.specs.Meaning.{declarations};
ghost use Rattle.env_theory.specs.Declarations.{Declaration};
ghost use Rattle.env_theory.specs.Heads.{head_form};
ghost use Rattle.env_theory.specs.Typing.{WellFormed};
ghost use Rattle.tactic_theory.specs.Strips.{strip};
ghost use Rattle.term_core.specs.Formula.{meaning};
ghost use Rattle.strip_core.specs.Drafts.{premise_of, drafted, AreOlder, Stands, Turns};
ghost use Rattle.strip_core.specs.Meaning.{strip_of};

use crate::strip::{Formulas, Strip};
use base_core::NoMemory;
use env_core::Env;
use form_core::shifted;
use std::alloc::Global;
use term_core::{Formula, Names};

/// A premise as it was taken off. Its variables are the open ones of that time, of which there were so many, and those
/// of the context.
#[derive(Drop)]
pub(crate) struct Premise {
    pub(crate) formula: Formula,
    pub(crate) opened: u64,
}

/// What the head form of what is left was: one that was taken off, an equation, or another.
#[derive(Clone, Copy)]
pub(crate) enum Head {
    Strip,
    Equation,
    Other,
}

/// What is left of a formula behind some strips, with the sorts of the open variables, the oldest first.
#[derive(Drop)]
pub(crate) struct Draft {
    pub(crate) sorts: Names,
    pub(crate) premises: Vec<Premise>,
    pub(crate) rest: Formula,
}

impl Draft {
    /// A formula behind no strip.
    pub(crate) fn of(alloc: Global, a: &Formula) -> Result<Draft, NoMemory>
        ensures none { IfOk result (λ d. drafted d ≡ strip [] [] (meaning a.now)) }
        ensures older { IfOk result (λ d. AreOlder d) }
    {
        Ok(Draft {
            sorts: Vec::new(alloc),
            premises: Vec::new(alloc),
            rest: a.copy()?,
        })
    }

    /// How many variables are open.
    pub(crate) fn open(&self) -> u64
        ensures { result ≡ length self.now.sorts.items }
    {
        self.sorts.len() as u64
    }

    /// How many variables there are, the open ones and so many of the context.
    pub(crate) fn all_variables(&self, context: u64) -> Result<u64, NoMemory>
        ensures { IfOk result (λ n. n ≡ context + length self.now.sorts.items) }
    {
        context.checked_add(self.open()).ok_or(NoMemory)
    }

    /// One strip more, if the head form of what is left has one.
    pub(crate) fn advance(&mut self, env: &Env) -> Result<Head, NoMemory>
        requires { AreOlder self.old }
        ensures turns { IfOk result (Turns (drafted self.old) (drafted self.new)
            (head_form (declarations env.now) (meaning self.old.rest))) }
        ensures older { OnOk result (AreOlder self.new) }
        ensures stands { (n : ℕ) → Stands (declarations env.now) n (drafted self.old)
            → OnOk result (Stands (declarations env.now) n (drafted self.new)) }
    {
        env.environment();
        let head = env.head_form(&self.rest)?;
        self.strip(&head)
    }

    /// The same with the head form at hand.
    #[tactic(auto, using(term_core::proofs::Variants::meanings))]
    fn strip(&mut self, head: &Formula) -> Result<Head, NoMemory>
        requires { AreOlder self.old }
        ensures turns { IfOk result (Turns (drafted self.old) (drafted self.new) (meaning head.now)) }
        ensures older { OnOk result (AreOlder self.new) }
    {
        match head {
            Formula::All(sort, _, body) => {
                self.sorts.push(sort.copy()?)?;
                self.rest = body.copy()?;
                Ok(Head::Strip)
            }
            Formula::Imp(premise, conclusion) => {
                let opened = self.open();
                self.premises.push(Premise {
                    formula: premise.copy()?,
                    opened,
                })?;
                self.rest = conclusion.copy()?;
                Ok(Head::Strip)
            }
            Formula::Eq(_, _, _) => Ok(Head::Equation),
            _ => Ok(Head::Other),
        }
    }

    /// The whole, where no strip is left to be taken. The context has at most so many variables.
    pub(crate) fn finish(self, alloc: Global, variables: u64) -> Result<Strip, NoMemory>
        requires older { AreOlder self }
        requires stands { (E : List Declaration) × Stands E variables (drafted self) }
        ensures { IfOk result (λ s. strip_of s ≡ drafted self) }
    {
        let opened = self.open();
        let all = self.all_variables(variables)?;
        let Draft {
            sorts,
            premises,
            rest,
        } = self;
        let premises = at_the_end(alloc, all, opened, premises.as_slice())?;
        Ok(Strip {
            sorts,
            premises,
            rest,
        })
    }
}

/// The premises, as they stand where so many variables are open, of `variables` in all.
fn at_the_end(
    alloc: Global,
    variables: u64,
    opened: u64,
    premises: &[Premise],
) -> Result<Formulas, NoMemory>
    requires older { All (λ p. p.opened ≤ opened) premises.now }
    requires formed { (E : List Declaration) × (V : List (List ℕ)) × (length V ≤ variables)
        × All (WellFormed E V) (map (premise_of opened) premises.now) }
    ensures { IfOk result (λ v. map meaning v.items ≡ map (premise_of opened) premises.now) }
{
    let mut made = Vec::with_capacity(alloc, premises.len())?;
    for premise in premises {
        made.push(shifted(alloc, variables, &premise.formula, opened - premise.opened)?)?;
    }
    Ok(made)
}
