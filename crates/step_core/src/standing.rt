//! What checking keeps between sentences.
ghost use Rattle.std.specs.Prelude.{◌≡◌, ◌∷◌, List, Some, None, true, option_map, IfErr, IfOk, IfSome};
ghost use Rattle.term_core.specs.Formula.{meaning};
ghost use Rattle.env_theory.specs.Declarations.{Declaration};
ghost use Rattle.env_core.specs.Meaning.{declaration, declarations};
ghost use Rattle.script_theory.specs.Sentences.{empty, opened, script};
ghost use Rattle.proof_state.specs.States as part;
ghost use Rattle.step_core.specs.Proofs.{IsKept, IsKeptIf, IsNext, open_of};
ghost use Rattle.step_core.specs.Standing.{first_fault, is_open, state_of, statement, statement_in};
ghost use Rattle.step_core.specs.Steps.{addition, ended, with_fault, with_goals, IsNew};

use crate::proof::OpenProof;
use base_core::NoMemory;
use env_core::{Decl, Env};
use proof_state::State;
use std::alloc::Global;
use std::marker::Model;
use term_core::Formula;

/// What checking keeps: an environment, and the open proof if there is one. Contracts see the two, which stand for
/// script_theory's state (`state_of` of specs/Standing).
#[derive(Drop)]
pub struct Standing0 {
    env: Env,
    proof: Option<OpenProof>,
}

impl Model for Standing0 {
    ghost use Rattle.step_core.specs.Proofs.{Kept};
    ghost use Rattle.std.specs.Coded.{codes};
    ghost use Rattle.term_core.specs.contracts.formula.Formula as formula;
    ghost use Rattle.term_core.specs.contracts.term.Term as term;
    ghost use Rattle.proof_state.specs.contracts.state.State as state;

    ghost Value = { Kept };

    ghost coded = { Prim.hlevel (codes, formula.the_row.coded, term.the_row.coded, state.the_row.coded) };

    ghost use Rattle.env_core.specs.Meaning.{declarations};
    ghost use Rattle.step_core.specs.Proofs.{IsKeptIf, kept};

    ghost view = { λ s. kept s.env s.proof };

    ghost invariant = { λ s. IsKeptIf (declarations s.env) s.proof };
}

/// Memory was wanting; the state is as it was.
#[derive(Drop)]
pub struct Short {
    pub state: Standing0,
}

impl Standing0 {
    /// The state before the first sentence.
    pub fn start(alloc: Global) -> Standing0
        ensures { state_of result ≡ empty }
    {
        Standing0 {
            env: Env::new(alloc),
            proof: None,
        }
    }

    /// An equal state, which shares its declarations and its goals.
    pub fn copy(&self) -> Result<Standing0, NoMemory>
        ensures { IfOk result (λ copy. state_of copy ≡ state_of self.now) }
    {
        let env = self.env.snapshot()?;
        let proof = copy_of(&self.proof)?;
        Ok(Standing0 { env, proof })
    }

    /// Its environment. While a proof is open it is that before the lemma.
    pub fn env(&self) -> &Env
        ensures { declarations result.now ≡ (state_of self.now).env }
    {
        &self.env
    }

    /// Whether a proof is open.
    pub fn is_open(&self) -> bool
        ensures { result ≡ is_open (state_of self.now) }
    {
        self.proof.is_some()
    }

    /// What the open proof is to show; None exactly where no proof is open, or where its lemma failed.
    pub fn statement(&self) -> Option<&Formula>
        ensures { option_map (λ a. meaning a.now) result ≡ statement (state_of self.now) }
    {
        match &self.proof {
            Some(OpenProof::Of(lemma)) => Some(&lemma.formula),
            _ => None,
        }
    }

    /// The id of the open proof's first fault; None exactly where no proof is open, or where it has no fault.
    pub fn first_fault(&self) -> Option<u64>
        ensures { result ≡ first_fault (state_of self.now) }
    {
        match &self.proof {
            None => None,
            Some(proof) => proof.fault(),
        }
    }

    /// The open proof.
    pub(crate) fn proof(&self) -> Option<&OpenProof>
        ensures proof { option_map (λ p. p.now) result ≡ self.now.proof }
        ensures kept { IsKeptIf (declarations self.now.env) self.now.proof }
    {
        self.proof.as_ref()
    }

    /// With this proof open.
    pub(crate) fn begun(self, proof: OpenProof) -> Standing0
        requires { IsKept (state_of self).env proof }
        ensures { state_of result ≡ script (state_of self).env (Some (open_of proof)) }
    {
        Standing0 {
            env: self.env,
            proof: Some(proof),
        }
    }

    /// With these goals in the open proof.
    pub(crate) fn with_goals(self, goals: State) -> Standing0
        requires { IsNext (state_of self).env self.proof goals }
        ensures { state_of result ≡ with_goals (part.state_of goals) (state_of self) }
    {
        let Standing0 { env, proof } = self;
        Standing0 {
            env,
            proof: with_goals(proof, goals),
        }
    }

    /// With its first fault at the sentence with this id.
    pub(crate) fn with_fault(self, id: u64) -> Standing0
        ensures { state_of result ≡ with_fault id (state_of self) }
    {
        let Standing0 { env, proof } = self;
        Standing0 {
            env,
            proof: with_fault(proof, id),
        }
    }

    /// No proof is open any more; its statement is added if it has one and `add` is true.
    pub(crate) fn ended(self, add: bool) -> Result<Standing0, Short>
        ensures ok { IfOk result (λ s. state_of s ≡ ended add (state_of self)) }
        ensures err { IfErr result (λ short. state_of short.state ≡ state_of self) }
    {
        match self.addition(add) {
            Err(_) => Err(Short { state: self }),
            Ok(None) => Ok(self.closed()),
            Ok(Some(decl)) => self.with(decl),
        }
    }

    /// Without an open proof.
    fn closed(self) -> Standing0
        ensures { state_of result ≡ script (state_of self).env None }
    {
        Standing0 {
            env: self.env,
            proof: None,
        }
    }

    /// What is declared where the open proof ends, if its statement is to be added.
    fn addition(&self, add: bool) -> Result<Option<Decl>, NoMemory>
        ensures decl { IfOk result (λ d. option_map declaration d ≡ addition add (statement_in (state_of self.now).proof)) }
        ensures new { IfOk result (λ d. IfSome d (λ d. IsNew (state_of self.now).env (declaration d))) }
    {
        if add {
            return statement_in(&self.proof);
        }
        Ok(None)
    }

    /// One declaration more, and no proof is open.
    pub(crate) fn with(self, decl: Decl) -> Result<Standing0, Short>
        requires { IsNew (state_of self).env (declaration decl) }
        ensures ok { IfOk result (λ s. state_of s ≡ script (declaration decl ∷ (state_of self).env) None) }
        ensures err { IfErr result (λ short. state_of short.state ≡ state_of self) }
    {
        let mut env = self.env;
        match env.add(decl) {
            Ok(()) => Ok(Standing0 { env, proof: None }),
            Err(_) => Err(Short {
                state: Standing0 {
                    env,
                    proof: self.proof,
                },
            }),
        }
    }
}

/// The proof with these goals.
fn with_goals(proof: Option<OpenProof>, goals: State) -> Option<OpenProof>
    requires { (E : List Declaration) × IsNext E proof goals }
    ensures open { option_map open_of result ≡ option_map (λ o. opened o.statement (part.state_of goals) o.fault) (option_map open_of proof) }
    ensures kept { (E : List Declaration) → IsKeptIf E proof → IsNext E proof goals → IsKeptIf E result }
{
    match proof {
        Some(OpenProof::Of(lemma)) => Some(OpenProof::Of(lemma.with_state(goals))),
        _ => unreachable!(),
    }
}

/// The proof with its first fault at the sentence with this id.
fn with_fault(proof: Option<OpenProof>, id: u64) -> Option<OpenProof>
    ensures open { option_map open_of result ≡ option_map (λ o. opened o.statement o.goals (Some id)) (option_map open_of proof) }
    ensures kept { (E : List Declaration) → IsKeptIf E proof → IsKeptIf E result }
{
    match proof {
        None => None,
        Some(proof) => Some(proof.with_fault(id)),
    }
}

/// An equal proof, if there is one.
fn copy_of(proof: &Option<OpenProof>) -> Result<Option<OpenProof>, NoMemory>
    ensures same { IfOk result (λ p. option_map open_of p ≡ option_map open_of proof.now) }
    ensures kept { IfOk result (λ p. (E : List Declaration) → IsKeptIf E proof.now → IsKeptIf E p) }
{
    match proof {
        None => Ok(None),
        Some(proof) => Ok(Some(proof.copy()?)),
    }
}

/// What is declared where the statement of a proof is added, if it has one.
fn statement_in(proof: &Option<OpenProof>) -> Result<Option<Decl>, NoMemory>
    ensures decl { IfOk result (λ d. option_map declaration d ≡ addition true (statement_in (option_map open_of proof.now))) }
    ensures new { IfOk result (λ d. (E : List Declaration) → IsKeptIf E proof.now → IfSome d (λ d. IsNew E (declaration d))) }
{
    match proof {
        Some(OpenProof::Of(lemma)) => Ok(Some(lemma.decl()?)),
        _ => Ok(None),
    }
}
