//! The sentences of a document.
ghost use Rattle.std.specs.Prelude.{◌≡◌, ℕ, true, false, IfOk, IsTrue, None, OnErr};
ghost use Rattle.serapi_ans.specs.declared.line.Exn.TheVariants as exn;
ghost use Rattle.doc_theory.specs.Documents.{Sentence as Said, empty, plain};
ghost use Rattle.doc_theory.specs.Editing.{added, attempt, is_full, refused};
ghost use Rattle.doc_core.specs.Pieces.{sentence_of};

use base_core::{NoMemory, Sequence};
use std::alloc::Global;
use std::marker::Model;
use vern_step::Sentence;

/// The first id that isn't given.
const ID_LIMIT: u64 = 4_611_686_018_427_387_904;

/// A sentence with its id.
#[derive(Drop)]
pub struct Placed {
    pub id: u64,
    pub sentence: Sentence,
}

/// The sentences of a document in order, outside of proofs, with the next id and the limit of sentences. Contracts see
/// doc_theory's document, in which none of them is told.
#[derive(Drop)]
pub struct Script {
    entries: Sequence<Placed>,
    next: u64,
    limit: u64,
}

impl Model for Script {
    ghost use Rattle.doc_theory.specs.Documents.{Document};
    ghost use Rattle.doc_core.specs.Kept.{document_of};

    ghost Value = { Document };

    ghost view = { λ s. document_of s.entries s.next s.limit };
}

impl Script {
    /// No sentences.
    pub fn new(alloc: Global, limit: u64) -> Script
        ensures { result ≡ empty limit }
    {
        Script {
            entries: Sequence::new(alloc),
            next: 2,
            limit,
        }
    }

    /// Whether no sentence goes in any more.
    pub fn is_full(&self) -> bool
        ensures full { result ≡ is_full self.now }
        ensures refuses { IsTrue result → (p : ℕ) (x : Said) → x.kind ≡ plain → attempt self.now p x ≡ refused (exn.TooMany p) }
    {
        let has_room = (self.entries.len() as u64) < self.limit;
        let has_id = self.next < ID_LIMIT;
        !has_room || !has_id
    }

    /// Adds a declaration or a definition, and answers its id.
    pub fn add(&mut self, sentence: Sentence) -> Result<u64, NoMemory>
        requires plain { (sentence_of sentence).kind ≡ plain }
        requires room { is_full self.old ≡ false }
        ensures ok { IfOk result (λ id. (p : ℕ) → attempt self.old p (sentence_of sentence) ≡ added self.new id None) }
        ensures err { OnErr result (self.new ≡ self.old) }
        ensures limit { self.new.limit ≡ self.old.limit }
    {
        let id = self.next;
        self.entries.push(Placed { id, sentence })?;
        self.next = id + 1;
        Ok(id)
    }
}
