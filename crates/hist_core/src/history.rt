//! The list of what happened in a session.
ghost use Rattle.std.specs.Prelude.{◌≡◌, ◌<◌, ◌≤◌, ◌+◌, ◌^◌, ◌++◌, [], ◌∷◌, drop, length, IsOk, OnErr, OnOk};
ghost use Rattle.hist_core.specs.Events.{event};

use crate::entry::Entry;
use base_core::NoMemory;
use std::alloc::Global;
use std::marker::Model;

/// The entries of a session, the oldest first, with a spare. Contracts see the events that the entries stand for, and
/// beside them the spare: how many more go in without memory.
#[derive(Debug, Drop)]
pub struct History {
    entries: Vec<Entry>,
}

impl Model for History {
    ghost use Rattle.std.specs.Prelude.{◌-◌, map, vec_len, vec_capacity};
    ghost use Rattle.base_core.specs.Lists.{Spared};
    ghost use Rattle.doc_theory.specs.Histories.{Event};
    ghost use Rattle.hist_core.specs.Events.{event};

    ghost Value = { Spared Event };

    ghost view = { λ h. record { items = map event h.entries.items; spare = vec_capacity h.entries - vec_len h.entries } };
}

impl History {
    /// No entries, and maybe no spare.
    pub fn new(alloc: Global) -> History
        ensures { result.items ≡ [] }
    {
        History {
            entries: Vec::new(alloc),
        }
    }

    /// Makes room for so many entries more. `NoMemory` comes only where there is less room, and leaves it as it was.
    pub fn reserve(&mut self, more: u64) -> Result<(), NoMemory>
        ensures items { self.new.items ≡ self.old.items }
        ensures room { OnOk result (more ≤ self.new.spare) }
        ensures kept { self.old.spare ≤ self.new.spare }
        ensures succeeds { more ≤ self.old.spare → IsOk result }
        ensures err { OnErr result (self.new ≡ self.old) }
    {
        self.entries.reserve(more as usize)?;
        Ok(())
    }

    /// How many entries more go in without memory.
    pub fn spare(&self) -> u64
        ensures { result ≡ self.now.spare }
    {
        (self.entries.capacity() - self.entries.len()) as u64
    }

    /// Adds an entry at the end, without memory.
    pub fn push_reserved(&mut self, entry: Entry)
        requires { 0 < self.old.spare }
        ensures items { self.new.items ≡ self.old.items ++ event entry ∷ [] }
        ensures spare { self.new.spare + 1 ≡ self.old.spare }
        ensures numbered { length self.new.items < 2 ^ 64 }
    {
        self.entries.push_reserved(entry);
    }

    /// How many entries there are.
    pub fn len(&self) -> u64
        ensures { result ≡ length self.now.items }
    {
        self.entries.len() as u64
    }

    /// The entry at a place, counted from 0.
    pub fn at(&self, place: u64) -> &Entry
        requires { place < length self.now.items }
        ensures { drop place self.now.items ≡ event result.now ∷ drop (place + 1) self.now.items }
    {
        &self.entries[place as usize]
    }
}

#[cfg(test)]
mod tests {
    use super::*;
    use std::test::Fail;

    #[test]
    fn entries_go_in_where_there_is_room(rt: HostRuntime) -> Result<(), Fail> {
        let mut history = History::new(rt.alloc());
        history.reserve(2)?;
        assert!(rt; history.spare() >= 2);
        history.push_reserved(Entry::Close);
        assert!(rt; history.spare() >= 1);
        assert_eq!(rt; history.len(), 1);
        assert!(rt; history.at(0).lines().is_empty());
        Ok(())
    }
}
