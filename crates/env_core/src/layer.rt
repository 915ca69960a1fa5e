//! A layer of entries.
ghost use Rattle.std.specs.Prelude.{◌≡◌, ◌<◌, ◌^◌, ℕ, [], ◌∷◌, ◌++◌, List, length, None, option_map, IfOk, OnOk, OnErr};
ghost use Rattle.fol_theory.specs.Contexts.{IsFromLast};
ghost use Rattle.std.specs.Arc.{arc_value};
ghost use Rattle.env_core.specs.Layers.{entry_name, found, AreApart};

use crate::entry::Entry;
use base_core::NoMemory;
use indexmap::IndexMap;
use std::alloc::Global;
use std::marker::Model;
use std::sync::Arc;
use term_core::Name;

/// Entries with names of their own, found by name. Contracts see the list of them, the newest first.
#[derive(Drop)]
pub struct Layer {
    by_name: IndexMap<Name, Arc<Entry>>,
}

impl Model for Layer {
    ghost use Rattle.std.specs.Prelude.{List, []};
    ghost use Rattle.std.specs.Coded.{codes};
    ghost use Rattle.term_core.specs.contracts.formula.Formula as formula;
    ghost use Rattle.term_core.specs.contracts.term.Term as term;
    ghost use Rattle.env_core.specs.declared.entry.Entry.{Entry};

    ghost Value = { List Entry };

    ghost coded = { Prim.hlevel (codes, formula.the_row.coded, term.the_row.coded) };

    ghost use Rattle.env_core.specs.Layers.{onto, AreKeyed, AreApart};

    ghost view = { λ l. onto [] l.by_name.entries };

    ghost invariant = { λ l. AreKeyed l.by_name.entries × AreApart (onto [] l.by_name.entries) };
}

impl Layer {
    /// No entries.
    pub fn new(alloc: Global) -> Layer
        ensures { result ≡ [] }
    {
        Layer {
            by_name: IndexMap::new(alloc),
        }
    }

    /// One entry more.
    pub fn push(&mut self, entry: &Arc<Entry>) -> Result<(), NoMemory>
        requires { found self.old (entry_name (arc_value entry.now)) ≡ None }
        ensures ok { OnOk result (self.new ≡ arc_value entry.now ∷ self.old) }
        ensures err { OnErr result (self.new ≡ self.old) }
    {
        let shared = Arc::try_clone(entry)?;
        self.by_name.insert(entry.decl.name().copy()?, shared)?;
        Ok(())
    }

    /// How many entries there are.
    #[tactic(auto, using(crate::proofs::Looking::places))]
    pub fn len(&self) -> usize
        ensures { result ≡ length self.now }
    {
        self.by_name.len()
    }

    /// The entries of another layer, before those that are there.
    pub fn extend(&mut self, newer: &Layer) -> Result<(), NoMemory>
        requires { AreApart (newer.now ++ self.old) }
        ensures { OnOk result (self.new ≡ newer.now ++ self.old) }
    {
        for number in 0..newer.len() {
            self.push(newer.at(number))?;
        }
        Ok(())
    }

    /// The entry of a name.
    #[tactic(auto, using(crate::proofs::Looking::looking))]
    pub fn find(&self, name: &Name) -> Option<&Entry>
        ensures { option_map (λ e. e.now) result ≡ found self.now name.now }
    {
        match self.by_name.get(name) {
            None => None,
            Some(entry) => Some(entry),
        }
    }

    /// The entry with so many older ones.
    #[tactic(auto, using(crate::proofs::Looking::places))]
    pub fn at(&self, number: usize) -> &Arc<Entry>
        requires { number < length self.now }
        ensures { IsFromLast self.now number (arc_value result.now) }
    {
        match self.by_name.get_index(number) {
            Some((_, entry)) => entry,
            None => unreachable!(),
        }
    }
}
