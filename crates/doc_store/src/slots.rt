//! What is kept of each id.
ghost use Rattle.std.specs.Prelude.{◌≡◌, ◌<◌, ◌++◌, ◌∷◌, [], ℕ, List, length, Option, Some, None, option_map, IfOk, OnOk, OnErr};
ghost use Rattle.doc_store.specs.Slots.{at_all, at_one, fresh_slot, lowered, slot_at, told_with};

use base_core::{NoMemory, SharedBytes};
use std::alloc::Global;
use std::marker::Model;
use vern_step::Sentence;

/// A live sentence.
#[derive(Drop)]
pub struct Slot {
    pub sentence: Sentence,
    /// Whether its verdict was told.
    pub told: bool,
    /// The text of the verdict that was told; None where it is good.
    pub text: Option<SharedBytes>,
}

/// What is kept of each id that was given, by its number; of an id whose sentence went, nothing. Contracts see the list.
#[derive(Drop)]
pub struct Slots {
    items: Vec<Option<Slot>>,
}

impl Model for Slots {
    ghost use Rattle.std.specs.Prelude.{List, Option};
    ghost use Rattle.doc_store.specs.declared.slots.Slot.{Slot};

    ghost Value = { List (Option Slot) };

    ghost view = { λ s. s.items.items };
}

impl Slots {
    /// Nothing is kept; the first id is 2.
    pub fn new(alloc: Global) -> Result<Slots, NoMemory>
        ensures { IfOk result (λ s. s ≡ None ∷ None ∷ []) }
    {
        let mut items = Vec::new(alloc);
        items.push(None)?;
        items.push(None)?;
        Ok(Slots { items })
    }

    /// The next id.
    pub fn next(&self) -> u64
        ensures { result ≡ length self.now }
    {
        self.items.len() as u64
    }

    /// What is kept of an id.
    pub fn at(&self, id: u64) -> Option<&Slot>
        ensures { option_map (λ s. s.now) result ≡ slot_at self.now id }
    {
        match self.items.get(id as usize) {
            Some(Some(slot)) => Some(slot),
            _ => None,
        }
    }

    /// A sentence gets the next id, and isn't told. With `Err` nothing changes.
    pub fn push(&mut self, sentence: Sentence) -> Result<(), NoMemory>
        ensures ok { OnOk result (self.new ≡ self.old ++ Some (fresh_slot sentence) ∷ []) }
        ensures err { OnErr result (self.new ≡ self.old) }
    {
        self.items.push(Some(Slot {
            sentence,
            told: false,
            text: None,
        }))?;
        Ok(())
    }

    /// The last id wasn't given.
    pub fn pop(&mut self)
        ensures { (slots : List (Option Slot)) (last : Option Slot) → self.old ≡ slots ++ last ∷ [] → self.new ≡ slots }
    {
        let _last = self.items.pop();
    }

    /// Another sentence stands with an id, and isn't told.
    pub fn replace(&mut self, id: u64, sentence: Sentence)
        requires { id < length self.old }
        ensures slots { (i : ℕ) → slot_at self.new i ≡ at_one id (λ s. Some (fresh_slot sentence)) self.old i }
        ensures length { length self.new ≡ length self.old }
    {
        self.items[id as usize] = Some(Slot {
            sentence,
            told: false,
            text: None,
        });
    }

    /// A sentence isn't told any more.
    pub fn lower(&mut self, id: u64)
        ensures slots { (i : ℕ) → slot_at self.new i ≡ at_one id (option_map lowered) self.old i }
        ensures length { length self.new ≡ length self.old }
    {
        if let Some(slot) = self.items.get_mut(id as usize) {
            lower_slot(slot);
        }
    }

    /// These sentences aren't told any more.
    pub fn lower_all(&mut self, ids: &[u64])
        ensures slots { (i : ℕ) → slot_at self.new i ≡ at_all ids.now (option_map lowered) self.old i }
        ensures length { length self.new ≡ length self.old }
    {
        for id in ids {
            self.lower(*id);
        }
    }

    /// A sentence is told, with the text of its verdict, which is None where that is good.
    pub fn tell(&mut self, id: u64, text: Option<SharedBytes>)
        ensures slots { (i : ℕ) → slot_at self.new i ≡ at_one id (option_map (told_with text)) self.old i }
        ensures length { length self.new ≡ length self.old }
    {
        if let Some(slot) = self.items.get_mut(id as usize) {
            tell_slot(slot, text);
        }
    }

    /// A sentence went.
    fn clear(&mut self, id: u64)
        ensures slots { (i : ℕ) → slot_at self.new i ≡ at_one id (λ s. None) self.old i }
        ensures length { length self.new ≡ length self.old }
    {
        if let Some(slot) = self.items.get_mut(id as usize) {
            *slot = None;
        }
    }

    /// These sentences went.
    pub fn clear_all(&mut self, ids: &[u64])
        ensures slots { (i : ℕ) → slot_at self.new i ≡ at_all ids.now (λ s. None) self.old i }
        ensures length { length self.new ≡ length self.old }
    {
        for id in ids {
            self.clear(*id);
        }
    }
}

/// What is kept isn't told any more.
fn lower_slot(slot: &mut Option<Slot>)
    ensures { slot.new ≡ option_map lowered slot.old }
{
    if let Some(kept) = slot {
        kept.told = false;
    }
}

/// What is kept is told, with the text of its verdict.
fn tell_slot(slot: &mut Option<Slot>, text: Option<SharedBytes>)
    ensures { slot.new ≡ option_map (told_with text) slot.old }
{
    if let Some(kept) = slot {
        kept.told = true;
        kept.text = text;
    }
}
