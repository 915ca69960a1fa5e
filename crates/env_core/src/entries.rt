//! Entries in layers that copies share.
ghost use Rattle.std.specs.Prelude.{◌≡◌, ◌<◌, ◌≤◌, [], ◌∷◌, ◌++◌, length, take, None, option_map, IfOk, OnOk, OnErr};
ghost use Rattle.fol_theory.specs.Contexts.{IsFromLast};
ghost use Rattle.std.specs.Arc.{arc_value};
ghost use Rattle.env_core.specs.Layers.{entry_name, found, AreApart, stacked};

use crate::entry::Entry;
use crate::layer::Layer;
use base_core::NoMemory;
use std::alloc::Global;
use std::marker::Model;
use std::sync::Arc;
use term_core::Name;

/// Entries with names of their own. Contracts see the list of them, the newest first.
///
/// There are as many layers, the oldest first, as ones in the binary form of `len`: the length of each is a power of
/// two, and no two are as long.
#[derive(Drop)]
pub struct Entries {
    layers: Vec<Arc<Layer>>,
    len: u64,
}

impl Model for Entries {
    ghost use Rattle.std.specs.Prelude.{◌≡◌, List, [], length};
    ghost use Rattle.std.specs.Coded.{codes};
    ghost use Rattle.term_core.specs.contracts.formula.Formula as formula;
    ghost use Rattle.term_core.specs.contracts.term.Term as term;
    ghost use Rattle.env_core.specs.declared.entry.Entry.{Entry};

    ghost Value = { List Entry };

    ghost coded = { Prim.hlevel (codes, formula.the_row.coded, term.the_row.coded) };

    ghost use Rattle.env_core.specs.Layers.{AreApart, stacked};

    ghost view = { λ e. stacked [] e.layers.items };

    ghost invariant = { λ e. AreApart (stacked [] e.layers.items) × (e.len ≡ length (stacked [] e.layers.items)) };
}

impl Entries {
    /// No entries.
    pub fn new(alloc: Global) -> Entries
        ensures { result ≡ [] }
    {
        Entries {
            layers: Vec::new(alloc),
            len: 0,
        }
    }

    /// What the layers are allocated by.
    pub fn allocator(&self) -> Global {
        *self.layers.allocator()
    }

    /// How many entries there are.
    pub fn len(&self) -> u64
        ensures { result ≡ length self.now }
    {
        self.len
    }

    /// The entry of a name, or None exactly where none has it.
    pub fn find(&self, name: &Name) -> Option<&Entry>
        ensures { option_map (λ e. e.now) result ≡ found self.now name.now }
    {
        for layer in &self.layers {
            let found = layer.find(name);
            if found.is_some() {
                return found;
            }
        }
        None
    }

    /// An entry by its number, from 0 in the order in which they were pushed.
    pub fn at(&self, number: u64) -> &Entry
        requires { number < length self.now }
        ensures { IsFromLast self.now number result.now }
    {
        let mut left = number;
        for layer in &self.layers {
            let here = layer.len() as u64;
            if left < here {
                return layer.at(left as usize);
            }
            left -= here;
        }
        unreachable!()
    }

    /// One entry more, the newest. On `NoMemory` they are as they were; so they are where there are 2^64 - 1.
    pub fn push(&mut self, entry: Entry) -> Result<(), NoMemory>
        requires { found self.old (entry_name entry) ≡ None }
        ensures ok { OnOk result (self.new ≡ entry ∷ self.old) }
        ensures err { OnErr result (self.new ≡ self.old) }
    {
        let alloc = *self.layers.allocator();
        if self.len == u64::MAX {
            return Err(NoMemory);
        }
        let mut newest = Layer::new(alloc);
        newest.push(&Arc::new(alloc, entry)?)?;
        let kept = gathered(alloc, &self.layers, &mut newest)?;
        put_behind(&mut self.layers, kept, Arc::new(alloc, newest)?)?;
        self.len += 1;
        Ok(())
    }

    /// The same entries, in the same layers.
    pub fn snapshot(&self) -> Result<Entries, NoMemory>
        ensures { IfOk result (λ copy. copy ≡ self.now) }
    {
        let mut layers = Vec::with_capacity(*self.layers.allocator(), self.layers.len())?;
        for layer in &self.layers {
            layers.push(Arc::try_clone(layer)?)?;
        }
        Ok(Entries {
            layers,
            len: self.len,
        })
    }
}

/// Puts layers that are as long as the newest under it, and tells how many stay.
fn gathered(alloc: Global, layers: &[Arc<Layer>], newest: &mut Layer) -> Result<usize, NoMemory>
    requires { AreApart (newest.old ++ stacked [] layers.now) }
    ensures within { IfOk result (λ kept. kept ≤ length layers.now) }
    ensures whole { IfOk result (λ kept. newest.new ++ stacked [] (take kept layers.now) ≡ newest.old ++ stacked [] layers.now) }
{
    let mut kept = layers.len();
    while kept > 0 && layers[kept - 1].len() == newest.len() {
        let mut whole = Layer::new(alloc);
        whole.extend(&layers[kept - 1])?;
        whole.extend(newest)?;
        *newest = whole;
        kept -= 1;
    }
    Ok(kept)
}

/// Puts a layer behind the first so many, in number of the others.
fn put_behind(layers: &mut Vec<Arc<Layer>>, kept: usize, layer: Arc<Layer>) -> Result<(), NoMemory>
    requires { kept ≤ length layers.old.items }
    ensures ok { OnOk result (layers.new.items ≡ take kept layers.old.items ++ layer ∷ []) }
    ensures err { OnErr result (layers.new.items ≡ layers.old.items) }
{
    if kept < layers.len() {
        layers[kept] = layer;
        layers.truncate(kept + 1);
    } else {
        layers.push(layer)?;
    }
    Ok(())
}
