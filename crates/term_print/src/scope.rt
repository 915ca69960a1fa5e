//! The names of variables while a formula is written.
ghost use Rattle.std.specs.Prelude.{◌≡◌, ◌++◌, ◌-◌, ◌∷◌, [], false, length, take, IfOk, OnOk};
ghost use Rattle.elab_theory.specs.Sentences.{is_among};
ghost use Rattle.print_theory.specs.Names.{free_from, name_of, numbered};
ghost use Rattle.print_theory.specs.Printing.{bound_name};
ghost use Rattle.term_print.specs.Output.{all_names, used_names, names_outside, AreUsed};

use base_core::{NoMemory, SharedBytes};
use indexmap::{IndexMap, IndexSet};
use itoa::Buffer;
use std::alloc::Global;
use std::marker::Model;
use term_core::{Name, Taken};

/// The names of the binders that are open, the oldest first, no two of which are equal; those of the variables outside,
/// the newest first; and the names that are taken. A name is found among the first without going through them. Of a name
/// that was numbered it is kept how many numbers from 0 on the last two use up, so that the next binder doesn't try those.
#[derive(Drop)]
pub struct Scope<'a, T: Taken> {
    bound: IndexSet<Name>,
    outer: &'a [Name],
    taken: &'a T,
    passed: IndexMap<Name, u64>,
}

impl<'a, T: Taken> Model for Scope<'a, T> {
    ghost use Rattle.term_print.specs.Output.{Names};

    ghost Value = { Names };

    ghost use Rattle.std.specs.Prelude.{◌++◌};
    ghost use Rattle.term_print.specs.Output.{ArePassed};

    ghost view = { λ s. record { bound = s.bound.keys; outer = s.outer.now; taken = T.taken s.taken.now } };

    ghost invariant = { λ s. ArePassed s.passed (s.outer.now ++ T.taken s.taken.now) };
}

impl<'a, T: Taken> Scope<'a, T> {
    /// No binder is open.
    pub fn new(alloc: Global, outer: &'a [Name], taken: &'a T) -> Scope<'a, T>
        ensures { result ≡ record { bound = []; outer = outer.now; taken = T.taken taken.now } }
    {
        Scope {
            bound: IndexSet::new(alloc),
            outer,
            taken,
            passed: IndexMap::new(alloc),
        }
    }

    /// The name of a variable, or nothing where it has none.
    pub fn name_of(&self, index: u64) -> &[u8]
        ensures { result.now ≡ name_of (all_names self.now) index }
    {
        let bound = self.bound.as_slice();
        let count = bound.len() as u64;
        if index < count {
            bound[(count - 1 - index) as usize].as_slice()
        } else {
            name_at(self.outer, index - count)
        }
    }

    /// Whether a name is taken or that of a variable.
    fn is_used(&self, name: &Name) -> bool
        ensures { result ≡ is_among name.now (used_names self.now) }
    {
        if self.bound.contains(name) {
            return true;
        }
        if is_among(name, self.outer) {
            return true;
        }
        self.taken.is_taken(name)
    }

    /// Whether a name is taken or that of a variable outside.
    fn is_outside(&self, name: &Name) -> bool
        ensures { result ≡ is_among name.now (names_outside self.now) }
    {
        is_among(name, self.outer) || self.taken.is_taken(name)
    }

    /// The name that a binder gets.
    pub fn picked(&mut self, name: &Name) -> Result<Name, NoMemory>
        ensures picked { IfOk result (λ y. y ≡ bound_name (all_names self.old) self.old.taken name.now) }
        ensures scope { self.new ≡ self.old }
    {
        if self.is_used(name) {
            self.free_name(name)
        } else {
            name.copy()
        }
    }

    /// The name with the least number with which it isn't used. No list of names has so many that the numbers run out.
    fn free_name(&mut self, name: &Name) -> Result<Name, NoMemory>
        ensures free { IfOk result (λ y. y ≡ free_from (length (used_names self.old)) 0 name.now (used_names self.old)) }
        ensures scope { self.new ≡ self.old }
    {
        let from = self.pass(name)?;
        self.free_name_from(name, from)
    }

    /// The same, from a number on, where it is used with all below.
    fn free_name_from(&self, name: &Name, from: u64) -> Result<Name, NoMemory>
        requires { AreUsed name.now from (used_names self.now) }
        ensures { IfOk result (λ y. y ≡ free_from (length (used_names self.now)) 0 name.now (used_names self.now)) }
    {
        let alloc = *self.bound.allocator();
        for k in from..u64::MAX {
            let candidate = numbered(alloc, name, k)?;
            if !self.is_used(&candidate) {
                return Ok(candidate);
            }
        }
        Err(NoMemory)
    }

    /// How many numbers from 0 on the names outside and those that are taken use up, which is kept.
    fn pass(&mut self, name: &Name) -> Result<u64, NoMemory>
        ensures used { IfOk result (λ n. AreUsed name.now n (used_names self.old)) }
        ensures scope { self.new ≡ self.old }
    {
        let count = self.count_outside(name, self.kept(name))?;
        self.passed.insert(name.copy()?, count)?;
        Ok(count)
    }

    /// How many are known.
    fn kept(&self, name: &Name) -> u64
        ensures { AreUsed name.now result (names_outside self.now) }
    {
        match self.passed.get(name) {
            Some(count) => *count,
            None => 0,
        }
    }

    /// How many there are, where so many are known.
    fn count_outside(&self, name: &Name, known: u64) -> Result<u64, NoMemory>
        requires { AreUsed name.now known (names_outside self.now) }
        ensures { IfOk result (λ n. AreUsed name.now n (names_outside self.now)) }
    {
        let alloc = *self.bound.allocator();
        for k in known..u64::MAX {
            let candidate = numbered(alloc, name, k)?;
            if !self.is_outside(&candidate) {
                return Ok(k);
            }
        }
        Err(NoMemory)
    }

    /// A binder more is open, with a name that none of the others has.
    pub fn enter(&mut self, name: Name) -> Result<(), NoMemory>
        requires new { is_among name self.old.bound ≡ false }
        ensures { OnOk result (self.new ≡ record {
          bound = self.old.bound ++ (name ∷ []);
          outer = self.old.outer;
          taken =
              self.old.taken;
        }) }
    {
        self.bound.insert(name)?;
        Ok(())
    }

    /// The binder that was opened last is closed.
    pub fn leave(&mut self)
        ensures { self.new ≡ record {
          bound = take (length self.old.bound - 1) self.old.bound;
          outer = self.old.outer;
          taken =
              self.old.taken;
        } }
    {
        let count = self.bound.len();
        self.bound.truncate(count.saturating_sub(1));
    }
}

/// A name of a list, or nothing behind its end.
fn name_at(names: &[Name], index: u64) -> &[u8]
    ensures { result.now ≡ name_of names.now index }
{
    let at = index as usize;
    if at < names.len() {
        names[at].as_slice()
    } else {
        b"".as_slice()
    }
}

/// Whether a name is one of a list.
fn is_among(name: &Name, names: &[Name]) -> bool
    ensures { result ≡ is_among name.now names.now }
{
    names.iter().any(|other| other == name)
}

/// A name with a number behind it.
fn numbered(alloc: Global, name: &Name, number: u64) -> Result<Name, NoMemory>
    ensures { IfOk result (λ y. y ≡ numbered name.now number) }
{
    let mut buffer = Buffer::new();
    let digits = buffer.format(number);
    let mut bytes = name.as_slice().to_vec(alloc)?;
    bytes.extend_from_slice(digits.as_bytes())?;
    let bytes = SharedBytes::from_vec(bytes)?;
    Ok(Name::from_shared(bytes))
}
