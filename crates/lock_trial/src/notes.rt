//! A list of notes as a state behind the lock.
ghost use Rattle.std.specs.Prelude.{◌≡◌, ℕ, [], ◌∷◌, ◌++◌, MatchResult};
ghost use Rattle.lock_trial.specs.Noting.{note};

use base_core::NoMemory;
use doc_lock::Guarded;
use std::alloc::Global;

/// What one seat wrote.
#[derive(Clone, Copy, Debug)]
pub struct Note {
    /// The number of the seat.
    pub by: u32,
    pub what: u64,
}

/// The notes in the order in which they were written, and the day that they are of.
#[derive(Drop)]
pub struct Notes {
    pub day: u32,
    pub notes: Vec<Note>,
}

impl Guarded for Notes {
    type Entry = Note;

    type Origin = u32;

    ghost list = { λ n. n.notes.items };

    ghost author = { λ e. e.by };

    ghost origin = { λ n. n.day };

    fn entries(&self) -> u64 {
        self.notes.len() as u64
    }
}

impl Notes {
    /// No notes yet.
    pub fn new(alloc: Global, day: u32) -> Notes
        ensures day { result.day ≡ day }
        ensures notes { result.notes.items ≡ [] }
    {
        Notes {
            day,
            notes: Vec::new(alloc),
        }
    }

    /// Adds a note. Where memory is wanting there is none more.
    pub fn add(&mut self, by: u32, what: u64) -> Result<(), NoMemory>
        ensures notes { MatchResult result (λ _. self.new.notes.items ≡ self.old.notes.items ++ note by what ∷ [])
            (λ _. self.new.notes.items ≡ self.old.notes.items) }
        ensures day { self.new.day ≡ self.old.day }
    {
        self.notes.push(Note { by, what })?;
        Ok(())
    }
}
