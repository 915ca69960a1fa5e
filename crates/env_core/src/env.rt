//! Environments.
ghost use Rattle.std.specs.Prelude.{◌≡◌, ◌<◌, ◌^◌, ℕ, List, [], ◌∷◌, length, min, None, option_map, MatchOption, IfOk, OnOk, OnErr};
ghost use Rattle.term_core.specs.Term as term;
ghost use Rattle.term_core.specs.Formula as formula;
ghost use Rattle.fol_theory.specs.Measures.{nodes, height, term_nodes, term_height};
ghost use Rattle.fol_theory.specs.Contexts.{IsFromLast};
ghost use Rattle.env_theory.specs.Declarations.{find, name_of};
ghost use Rattle.env_theory.specs.Typing.{Declares, Environment, HasSort, WellFormed};
ghost use Rattle.env_theory.specs.Normal.{normal, normal_term};
ghost use Rattle.env_theory.specs.Heads.{head_form};
ghost use Rattle.env_theory.specs.Machine.{term_body, formula_body};
ghost use Rattle.env_theory.specs.Count.{Table, row};
ghost use Rattle.env_core.specs.Meaning.{declaration, declarations};
ghost use Rattle.env_core.specs.Rows.{SameRow, nodes_row, height_row, nodes_table, height_table};
ghost use Rattle.env_core.specs.Summaries.{Projects};

use crate::declaration::Decl;
use crate::entries::Entries;
use crate::entry::{Definition, Entry};
use crate::head::{fill, head_of};
use crate::sizes::{Weights, formula_tally, term_tally};
use crate::summary::{Summary, summary_of};
use crate::tally::Tally;
use base_core::NoMemory;
use std::alloc::Global;
use std::marker::Model;
use term_core::{Formula, Name, Term};

/// An environment. Contracts see the list of its declarations, the newest first.
#[derive(Drop)]
pub struct Env {
    entries: Entries,
}

impl Model for Env {
    ghost use Rattle.std.specs.Prelude.{List};
    ghost use Rattle.std.specs.Coded.{codes};
    ghost use Rattle.term_core.specs.contracts.formula.Formula as formula;
    ghost use Rattle.term_core.specs.contracts.term.Term as term;
    ghost use Rattle.env_core.specs.declared.declaration.Decl.{Decl};

    ghost Value = { List Decl };

    ghost coded = { Prim.hlevel (codes, formula.the_row.coded, term.the_row.coded) };

    ghost use Rattle.env_theory.specs.Typing.{Environment};
    ghost use Rattle.env_core.specs.Meaning.{declarations};
    ghost use Rattle.env_core.specs.Layers.{decls};
    ghost use Rattle.env_core.specs.Summaries.{AreSummed};

    ghost view = { λ e. decls e.entries };

    ghost invariant = { λ e. Environment (declarations (decls e.entries)) × AreSummed e.entries };
}

impl Env {
    /// No declarations.
    pub fn new(alloc: Global) -> Env
        ensures { result ≡ [] }
    {
        Env {
            entries: Entries::new(alloc),
        }
    }

    /// Nothing is done: callers cite that each declaration is new and well formed over those before it.
    pub fn environment(&self)
        ensures { Environment (declarations self.now) }
    {
        let _ = &self.entries;
    }

    /// How many declarations there are.
    #[tactic(auto, using(crate::proofs::Kept::keeping))]
    pub fn len(&self) -> u64
        ensures { result ≡ length self.now }
    {
        self.entries.len()
    }

    /// The declaration of a name, or None exactly where none has it.
    #[tactic(auto, using(crate::proofs::Kept::keeping))]
    pub fn find(&self, name: &Name) -> Option<&Decl>
        ensures { option_map (λ d. declaration d.now) result ≡ find (declarations self.now) name.now }
    {
        match self.entries.find(name) {
            None => None,
            Some(entry) => Some(&entry.decl),
        }
    }

    /// A declaration by its number, from 0 in the order in which they were added.
    #[tactic(auto, using(crate::proofs::Kept::keeping))]
    pub fn at(&self, number: u64) -> &Decl
        requires { number < length self.now }
        ensures { IsFromLast self.now number result.now }
    {
        &self.entries.at(number).decl
    }

    /// One declaration more, the newest. On `NoMemory` the environment is as it was; so it is where there are 2^64 - 1.
    #[tactic(auto, using(crate::proofs::Kept::keeping))]
    pub fn add(&mut self, decl: Decl) -> Result<(), NoMemory>
        requires new { find (declarations self.old) (name_of (declaration decl)) ≡ None }
        requires declares { Declares (declarations self.old) (declaration decl) }
        ensures ok { OnOk result (self.new ≡ decl ∷ self.old) }
        ensures err { OnErr result (self.new ≡ self.old) }
    {
        let summary = summary_of(self.entries.allocator(), self, &decl)?;
        self.entries.push(Entry { decl, summary })?;
        Ok(())
    }

    /// An equal environment, which shares the layers.
    pub fn snapshot(&self) -> Result<Env, NoMemory>
        ensures { IfOk result (λ copy. copy ≡ self.now) }
    {
        Ok(Env {
            entries: self.entries.snapshot()?,
        })
    }

    /// A function's definition, or None exactly where the name has none.
    pub fn definition(&self, name: &Name) -> Option<Definition<'_>>
        ensures body { option_map (λ d. term.meaning d.body.now) result ≡ term_body (find (declarations self.now) name.now) }
        ensures parameter { MatchOption result (Unit {0}) (λ d. Projects (declarations self.now) (term.meaning d.body.now) d.projects) }
    {
        match self.entries.find(name) {
            None => None,
            Some(entry) => entry.definition(),
        }
    }

    /// The body of a predicate's definition, or None exactly where the name has none.
    pub fn predicate_body(&self, name: &Name) -> Option<&Formula>
        ensures { option_map (λ b. formula.meaning b.now) result ≡ formula_body (find (declarations self.now) name.now) }
    {
        match self.find(name) {
            Some(Decl::DefPred { body, .. }) => Some(body),
            _ => None,
        }
    }

    /// How many nodes the normal form of a term has, and how high it is, each up to 2^32. It isn't made.
    pub fn term_size(&self, t: &Term) -> Tally
        requires { (V : List (List ℕ)) × (s : List ℕ) × HasSort (declarations self.now) V (term.meaning t.now) s }
        ensures nodes { result.nodes ≡ min (term_nodes (normal_term (declarations self.now) (term.meaning t.now))) (2 ^ 32) }
        ensures height { result.height ≡ min (term_height (normal_term (declarations self.now) (term.meaning t.now))) (2 ^ 32) }
    {
        let _ = &self.entries;
        term_tally(self, Weights::Each, t)
    }

    /// How many nodes the normal form of a formula has, and how high it is, each up to 2^32. It isn't made.
    pub fn formula_size(&self, a: &Formula) -> Tally
        requires { (V : List (List ℕ)) × WellFormed (declarations self.now) V (formula.meaning a.now) }
        ensures nodes { result.nodes ≡ min (nodes (normal (declarations self.now) (formula.meaning a.now))) (2 ^ 32) }
        ensures height { result.height ≡ min (height (normal (declarations self.now) (formula.meaning a.now))) (2 ^ 32) }
    {
        let _ = &self.entries;
        match formula_tally(self, Weights::Each, a) {
            Ok(size) => size,
            Err(_) => unreachable!(),
        }
    }

    /// The head form of a formula: its predicate's definition is put in until its head isn't a defined predicate. The
    /// definitions are gone along by a loop, and nothing but the head form is made.
    pub fn head_form(&self, a: &Formula) -> Result<Formula, NoMemory>
        ensures { IfOk result (λ r. formula.meaning r ≡ head_form (declarations self.now) (formula.meaning a.now)) }
    {
        let alloc = self.entries.allocator();
        let mut frames = Vec::new(alloc);
        let head = head_of(self, &mut frames, a)?;
        if frames.is_empty() {
            return head.copy();
        }
        fill(alloc, frames.as_slice(), 0, head)
    }

    /// The summary of a function's definition.
    pub(crate) fn function(&self, name: &Name) -> Option<&Summary>
        ensures nodes { SameRow (option_map (λ s. nodes_row s.now) result) (row (Table.functions (nodes_table self.now)) name.now) }
        ensures height { SameRow (option_map (λ s. height_row s.now) result) (row (Table.functions (height_table self.now)) name.now) }
    {
        match self.entries.find(name) {
            None => None,
            Some(entry) => entry.function(),
        }
    }

    /// The summary of a predicate's definition.
    pub(crate) fn predicate(&self, name: &Name) -> Option<&Summary>
        ensures nodes { SameRow (option_map (λ s. nodes_row s.now) result) (row (Table.predicates (nodes_table self.now)) name.now) }
        ensures height { SameRow (option_map (λ s. height_row s.now) result) (row (Table.predicates (height_table self.now)) name.now) }
    {
        match self.entries.find(name) {
            None => None,
            Some(entry) => entry.predicate(),
        }
    }
}
