//! What stands behind the last item.
ghost use Rattle.std.specs.Prelude.{
  ◌≡◌,
  ℕ,
  suc,
  ◌-◌,
  ◌≤◌,
  ◌+◌,
  List,
  [],
  ◌∷◌,
  ◌++◌,
  take,
  length,
  Some,
  None,
  IfOk,
  OnOk,
  OnErr,
};
ghost use Rattle.line_theory.specs.Lists.{last_or};
ghost use Rattle.line_theory.specs.Lines.{end_ids};
ghost use Rattle.line_theory.specs.Shapes.{closed, proof};
ghost use Rattle.vcs_graph.specs.declared.place.Place.{Place};
ghost use Rattle.vcs_graph.specs.declared.place.Part.TheVariants.{Inside};
ghost use Rattle.vcs_graph.specs.Table.{IsTable, look, end_places};
ghost use Rattle.vcs_graph.specs.Parts.{end_front, lemma_of, body_of, IsOpen, with_body, ended_of, end_rest, end_left};

use crate::forget::forget_inside;
use crate::list::put_ids;
use crate::place::{Part, Place as Spot};
use crate::segment::{Closer, Segment, before_in};
use crate::table::{Places, forget, put};
use base_core::{NoMemory, SparedSequence};
use std::alloc::Global;
use std::marker::Model;

/// Nothing, or a block that has no closer yet.
#[derive(Drop)]
pub struct Ending {
    lemma: Option<u64>,
    inside: Vec<u64>,
}

impl Model for Ending {
    ghost use Rattle.std.specs.Prelude.{ℕ};
    ghost use Rattle.line_theory.specs.Shapes.{End};

    ghost Value = { End ℕ };

    ghost use Rattle.vcs_graph.specs.EndingView.{end_of};

    ghost view = { λ e. end_of e.lemma e.inside.items };
}

impl Ending {
    /// No block is open.
    pub fn new(alloc: Global) -> Ending
        ensures { result ≡ closed }
    {
        Ending {
            lemma: None,
            inside: Vec::new(alloc),
        }
    }

    /// The lemma of the open block.
    pub fn lemma(&self) -> Option<u64>
        ensures { result ≡ lemma_of self.now }
    {
        self.lemma
    }

    /// How many entries are inside of the open block.
    pub fn inside_len(&self) -> usize
        requires { IsOpen self.now }
        ensures { result ≡ length (body_of self.now) }
    {
        self.inside.len()
    }

    /// What is inside of the open block; nothing where none is open.
    pub fn inside(&self) -> &[u64]
        ensures { result.now ≡ body_of self.now }
    {
        match self.lemma {
            Some(_) => self.inside.as_slice(),
            None => &[],
        }
    }

    /// A block begins.
    pub fn begin(&mut self, lemma: u64)
        ensures { self.new ≡ proof lemma [] }
    {
        self.lemma = Some(lemma);
        self.inside.clear();
    }

    /// The last of its ids, or another where no block is open.
    pub fn last_or(&self, other: u64) -> u64
        ensures { result ≡ last_or other (end_ids self.now) }
    {
        match self.lemma {
            Some(lemma) => {
                let len = self.inside.len();
                if len == 0 {
                    lemma
                } else {
                    self.inside[len - 1]
                }
            }
            None => other,
        }
    }

    /// One entry more inside of the open block, which has a number; with `Err` all is as before.
    pub fn grow(&mut self, places: &mut Places, item: usize, id: u64) -> Result<(), NoMemory>
        requires { IsOpen self.old }
        ensures ok { OnOk result (self.new ≡ with_body (body_of self.old ++ id ∷ []) self.old) }
        ensures err { OnErr result (self.new ≡ self.old) }
        ensures placed { OnOk result ((a b : List (ℕ × Place)) → look id (a ++ b) ≡ None → IsTable places.old (a ++ b) →
            IsTable places.new (a ++ ((id, record { item = item; part = Inside (suc (length (body_of self.old))) }) ∷ b))) }
        ensures kept { OnErr result ((es : List (ℕ × Place)) → IsTable places.old es → IsTable places.new es) }
    {
        let part = Part::Inside(self.inside.len() + 1);
        self.inside.reserve(1)?;
        put(places, id, Spot { item, part })?;
        self.inside.push(id)?;
        Ok(())
    }

    /// The open block is closed, and nothing is open.
    pub fn close(&mut self, closer: Closer) -> Segment
        requires { IsOpen self.old }
        ensures closed { self.new ≡ closed }
        ensures block { result ≡ ended_of self.old closer }
    {
        let alloc = *self.inside.allocator();
        let inside = std::mem::replace(&mut self.inside, Vec::new(alloc));
        let lemma = self.lemma.unwrap_or(1);
        self.lemma = None;
        Segment::block(lemma, inside, closer)
    }

    /// The id before a part of the open block, or another where there is none in it.
    pub fn before_part(&self, part: Part, other: u64) -> u64
        ensures { result ≡ last_or other (end_front part self.now) }
    {
        match self.lemma {
            Some(lemma) => before_in(lemma, self.inside.as_slice(), part, other),
            None => other,
        }
    }

    /// A part of the open block is listed, and all behind it.
    pub fn put_from(&self, part: Part, list: &mut SparedSequence<u64>)
        requires room { length (end_ids self.now) ≤ list.old.spare }
        ensures items { list.new.items ≡ list.old.items ++ end_rest part self.now }
        ensures room { list.old.spare ≤ list.new.spare + length (end_rest part self.now) }
    {
        let Some(lemma) = self.lemma else {
            return;
        };
        let from = match part {
            Part::First => {
                list.push_reserved(lemma);
                0
            }
            Part::Inside(number) => number.saturating_sub(1).min(self.inside.len()),
            Part::Closer => return,
        };
        put_ids(&self.inside.as_slice()[from..], list);
    }

    /// A part of the open block goes, and all behind it.
    pub fn cut_from(&mut self, places: &mut Places, part: Part)
        requires { IsOpen self.old }
        ensures left { self.new ≡ end_left part self.old }
        ensures table { (k : ℕ) (x : List (ℕ × Place)) → IsTable places.old (x ++ end_places k self.old) →
            IsTable places.new (x ++ end_places k self.new) }
    {
        match part {
            Part::First => self.clear(places),
            Part::Inside(number) => self.shorten(places, number.saturating_sub(1)),
            Part::Closer => {}
        }
    }

    /// Nothing is open any more: all of its ids go.
    pub fn clear(&mut self, places: &mut Places)
        ensures closed { self.new ≡ closed }
        ensures table { (k : ℕ) (x : List (ℕ × Place)) → IsTable places.old (x ++ end_places k self.old) → IsTable places.new x }
    {
        if let Some(lemma) = self.lemma {
            forget_inside(places, &mut self.inside, 0);
            forget(places, lemma);
            self.lemma = None;
        }
    }

    /// Of the inside of the open block this many entries stay.
    pub fn shorten(&mut self, places: &mut Places, keep: usize)
        requires { IsOpen self.old }
        ensures short { self.new ≡ with_body (take keep (body_of self.old)) self.old }
        ensures table { (k : ℕ) (x : List (ℕ × Place)) → IsTable places.old (x ++ end_places k self.old) →
            IsTable places.new (x ++ end_places k self.new) }
    {
        forget_inside(places, &mut self.inside, keep);
    }

    /// A block that has lost its closer.
    pub fn put_back(&mut self, lemma: u64, inside: Vec<u64>)
        ensures { self.new ≡ proof lemma inside.items }
    {
        self.lemma = Some(lemma);
        self.inside = inside;
    }
}
