//! Open proofs.
ghost use Rattle.std.specs.Prelude.{◌≡◌, List, Some, IfOk};
ghost use Rattle.term_core.specs.Formula.{meaning};
ghost use Rattle.env_theory.specs.Declarations.{Declaration, stated};
ghost use Rattle.env_core.specs.Meaning.{declaration};
ghost use Rattle.script_theory.specs.Sentences.{opened};
ghost use Rattle.proof_state.specs.States as part;
ghost use Rattle.step_core.specs.Proofs.{IsKept, IsLemma, open_of, statement_of};

use base_core::NoMemory;
use env_core::Decl;
use proof_state::State;
use term_core::{Formula, Name};

/// A lemma that was good: what it states, how far its proof is, and the id of the proof's first fault.
#[derive(Drop)]
pub(crate) struct Lemma {
    pub(crate) name: Name,
    pub(crate) formula: Formula,
    pub(crate) state: State,
    pub(crate) fault: Option<u64>,
}

/// An open proof.
#[derive(Drop)]
pub(crate) enum OpenProof {
    /// Of a lemma that was good.
    Of(Lemma),
    /// Of a lemma that failed: it has no statement, and its first fault is the lemma, whose id this is.
    Failed(u64),
}

impl Lemma {
    /// An equal one, all shared.
    pub(crate) fn copy(&self) -> Result<Lemma, NoMemory>
        ensures statement { IfOk result (λ l. statement_of l ≡ statement_of self.now) }
        ensures state { IfOk result (λ l. part.state_of l.state ≡ part.state_of self.now.state) }
        ensures fault { IfOk result (λ l. l.fault ≡ self.now.fault) }
        ensures kept { IfOk result (λ l. (E : List Declaration) → IsLemma E self.now → IsLemma E l) }
    {
        let name = self.name.copy()?;
        let formula = self.formula.copy()?;
        let state = self.state.copy()?;
        Ok(Lemma {
            name,
            formula,
            state,
            fault: self.fault,
        })
    }

    /// With other goals.
    pub(crate) fn with_state(self, state: State) -> Lemma
        ensures statement { statement_of result ≡ statement_of self }
        ensures state { result.state ≡ state }
        ensures fault { result.fault ≡ self.fault }
    {
        Lemma { state, ..self }
    }

    /// What is declared where its statement is added.
    pub(crate) fn decl(&self) -> Result<Decl, NoMemory>
        ensures { IfOk result (λ d. declaration d ≡ stated self.now.name (meaning self.now.formula)) }
    {
        let name = self.name.copy()?;
        let formula = self.formula.copy()?;
        Ok(Decl::Stated { name, formula })
    }
}

impl OpenProof {
    /// An equal one, all shared.
    pub(crate) fn copy(&self) -> Result<OpenProof, NoMemory>
        ensures same { IfOk result (λ p. open_of p ≡ open_of self.now) }
        ensures kept { IfOk result (λ p. (E : List Declaration) → IsKept E self.now → IsKept E p) }
    {
        match self {
            OpenProof::Of(lemma) => Ok(OpenProof::Of(lemma.copy()?)),
            OpenProof::Failed(id) => Ok(OpenProof::Failed(*id)),
        }
    }

    /// The id of its first fault.
    pub(crate) fn fault(&self) -> Option<u64>
        ensures { result ≡ (open_of self.now).fault }
    {
        match self {
            OpenProof::Of(lemma) => lemma.fault,
            OpenProof::Failed(id) => Some(*id),
        }
    }

    /// With its first fault at the sentence with this id.
    pub(crate) fn with_fault(self, id: u64) -> OpenProof
        ensures open { open_of result ≡ opened (open_of self).statement (open_of self).goals (Some id) }
        ensures kept { (E : List Declaration) → IsKept E self → IsKept E result }
    {
        match self {
            OpenProof::Of(lemma) => OpenProof::Of(Lemma {
                fault: Some(id),
                ..lemma
            }),
            OpenProof::Failed(_) => OpenProof::Failed(id),
        }
    }
}
