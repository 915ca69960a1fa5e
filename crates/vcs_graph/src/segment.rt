//! One item of the line.
ghost use Rattle.std.specs.Prelude.{
  ◌≡◌,
  ℕ,
  suc,
  ◌≤◌,
  ◌-◌,
  ◌^◌,
  List,
  [],
  ◌∷◌,
  ◌++◌,
  ◌+◌,
  take,
  drop,
  length,
  Some,
  None,
  IfOk,
  OnOk,
  OnErr,
};
ghost use Rattle.line_theory.specs.Lists.{last_or};
ghost use Rattle.line_theory.specs.Lines.{item_ids};
ghost use Rattle.line_theory.specs.Shapes.{lone, block};
ghost use Rattle.vcs_graph.specs.declared.place.Place.{Place};
ghost use Rattle.vcs_graph.specs.declared.place.Part.TheVariants.{First, Inside};
ghost use Rattle.vcs_graph.specs.Table.{IsTable, look, item_places, inner_places};
ghost use Rattle.vcs_graph.specs.Parts.{
  part_front,
  block_front,
  inside_of,
  first_of,
  closer_of,
  IsBlock,
  with_inside,
  ended,
  part_rest,
  stop_of,
  opens_behind,
  opens_from,
  kept_before,
};
ghost use Rattle.vcs_graph.specs.Sites.{part_site, open_part_site};

use crate::forget::forget_inside;
use crate::list::put_ids;
use crate::place::{Part, Place as Spot};
use crate::site::Site;
use crate::table::{Places, forget, put};
use base_core::{NoMemory, SparedSequence};
use std::alloc::Global;
use std::marker::Model;

/// The closer of a block.
#[derive(Clone, Copy)]
pub struct Closer {
    pub id: u64,
    pub opaque: bool,
}

/// A lone entry, which has no closer, or a block.
#[derive(Drop)]
pub struct Segment {
    first: u64,
    inside: Vec<u64>,
    closer: Option<Closer>,
}

impl Model for Segment {
    ghost use Rattle.std.specs.Prelude.{ℕ};
    ghost use Rattle.line_theory.specs.Shapes.{Item};
    ghost use Rattle.line_theory.specs.Lines.{Closing};

    ghost Value = { Item ℕ Closing };

    ghost use Rattle.vcs_graph.specs.SegmentView.{item_of};

    ghost view = { λ s. item_of s.first s.inside.items s.closer };
}

impl Segment {
    /// An entry outside of blocks.
    pub fn lone(alloc: Global, id: u64) -> Segment
        ensures { result ≡ lone id }
    {
        Segment {
            first: id,
            inside: Vec::new(alloc),
            closer: None,
        }
    }

    /// A closed block.
    pub fn block(lemma: u64, inside: Vec<u64>, closer: Closer) -> Segment
        ensures { result ≡ ended lemma inside.items closer }
    {
        Segment {
            first: lemma,
            inside,
            closer: Some(closer),
        }
    }

    /// The lone entry, or the lemma.
    pub fn first(&self) -> u64
        ensures { result ≡ first_of self.now }
    {
        self.first
    }

    pub fn closer(&self) -> Option<Closer>
        ensures { result ≡ closer_of self.now }
    {
        self.closer
    }

    /// The closer's id of a block.
    pub fn stop(&self) -> u64
        ensures { result ≡ stop_of self.now }
    {
        match self.closer {
            Some(closer) => closer.id,
            None => self.first,
        }
    }

    /// How many entries are inside of a block.
    pub fn inside_len(&self) -> usize
        requires { IsBlock self.now }
        ensures { result ≡ length (inside_of self.now) }
    {
        self.inside.len()
    }

    /// The entries inside of a block; none of a lone entry.
    pub fn inside(&self) -> &[u64]
        ensures { result.now ≡ inside_of self.now }
    {
        match self.closer {
            Some(_) => self.inside.as_slice(),
            None => &[],
        }
    }

    /// The last entry inside of a block, or its lemma.
    pub fn last_inside(&self) -> u64
        requires { IsBlock self.now }
        ensures { result ≡ last_or (first_of self.now) (inside_of self.now) }
    {
        let len = self.inside.len();
        if len == 0 {
            self.first
        } else {
            self.inside[len - 1]
        }
    }

    /// The last of all its ids.
    pub fn last(&self) -> u64
        ensures { (n : ℕ) → result ≡ last_or n (item_ids self.now) }
    {
        match self.closer {
            Some(closer) => closer.id,
            None => self.first,
        }
    }

    /// One entry more inside of a block, which is the item with a number; with `Err` all is as before.
    pub fn grow(&mut self, places: &mut Places, item: usize, id: u64) -> Result<(), NoMemory>
        requires { IsBlock self.old }
        ensures ok { OnOk result (self.new ≡ with_inside (inside_of self.old ++ id ∷ []) self.old) }
        ensures err { OnErr result (self.new ≡ self.old) }
        ensures placed { OnOk result ((a b : List (ℕ × Place)) → look id (a ++ b) ≡ None → IsTable places.old (a ++ b) →
            IsTable places.new (a ++ ((id, record { item = item; part = Inside (suc (length (inside_of self.old))) }) ∷ b))) }
        ensures kept { OnErr result ((es : List (ℕ × Place)) → IsTable places.old es → IsTable places.new es) }
    {
        let part = Part::Inside(self.inside.len() + 1);
        self.inside.reserve(1)?;
        put(places, id, Spot { item, part })?;
        self.inside.push(id)?;
        Ok(())
    }

    /// The id before a part, or another where there is none in it.
    pub fn before_part(&self, part: Part, other: u64) -> u64
        ensures { result ≡ last_or other (part_front part self.now) }
    {
        match self.closer {
            Some(_) => before_in(self.first, self.inside.as_slice(), part, other),
            None => other,
        }
    }

    /// Of the inside of a block this many entries stay.
    pub fn shorten(&mut self, places: &mut Places, keep: usize)
        requires { IsBlock self.old }
        ensures short { self.new ≡ with_inside (take keep (inside_of self.old)) self.old }
        ensures table { (k : ℕ) (x y : List (ℕ × Place)) → IsTable places.old (x ++ (item_places k self.old ++ y)) →
            IsTable places.new (x ++ (item_places k self.new ++ y)) }
    {
        forget_inside(places, &mut self.inside, keep);
    }

    /// A part is listed, and all behind it in the item.
    pub fn put_from(&self, part: Part, list: &mut SparedSequence<u64>)
        requires room { length (item_ids self.now) ≤ list.old.spare }
        ensures items { list.new.items ≡ list.old.items ++ part_rest part self.now }
        ensures room { list.old.spare ≤ list.new.spare + length (part_rest part self.now) }
    {
        let Some(closer) = self.closer else {
            list.push_reserved(self.first);
            return;
        };
        let from = match part {
            Part::First => {
                list.push_reserved(self.first);
                0
            }
            Part::Inside(number) => number.saturating_sub(1).min(self.inside.len()),
            Part::Closer => self.inside.len(),
        };
        put_ids(&self.inside.as_slice()[from..], list);
        list.push_reserved(closer.id);
    }

    /// The entries inside of a block are listed, but the first so many.
    pub fn put_inside(&self, keep: usize, list: &mut SparedSequence<u64>)
        requires within { keep ≤ length (inside_of self.now) }
        requires room { length (inside_of self.now) ≤ list.old.spare }
        ensures items { list.new.items ≡ list.old.items ++ drop keep (inside_of self.now) }
        ensures room { list.old.spare ≤ list.new.spare + length (drop keep (inside_of self.now)) }
    {
        if self.closer.is_some() {
            put_ids(&self.inside.as_slice()[keep..], list);
        }
    }

    /// What a part of a closed block, or a lone entry, is in the line.
    pub fn site(&self, part: Part) -> Site
        ensures { result ≡ part_site part self.now }
    {
        match self.closer {
            None => Site::Lone,
            Some(closer) => match part {
                Part::First => Site::Lemma(closer.opaque),
                Part::Inside(_) => Site::Inner(closer.opaque),
                Part::Closer => Site::Closer,
            },
        }
    }

    /// Whether a block loses its closer and keeps its lemma where all behind a part goes.
    pub fn opens_behind(&self, part: Part) -> bool
        ensures { result ≡ opens_behind part self.now }
    {
        match part {
            Part::Closer => false,
            _ => self.closer.is_some(),
        }
    }

    /// Whether a block loses its closer and keeps its lemma where a part goes with all behind it.
    pub fn opens_from(&self, part: Part) -> bool
        ensures { result ≡ opens_from part self.now }
    {
        match part {
            Part::First => false,
            _ => self.closer.is_some(),
        }
    }

    /// How many entries stay inside of a block where a part goes with all behind it.
    pub fn kept_before(&self, part: Part) -> usize
        ensures { result ≡ kept_before part (length (inside_of self.now)) }
    {
        match part {
            Part::First => 0,
            Part::Inside(number) => number.saturating_sub(1),
            Part::Closer => {
                if self.closer.is_some() {
                    self.inside.len()
                } else {
                    0
                }
            }
        }
    }

    /// All of its ids go.
    pub fn forget_all(self, places: &mut Places)
        ensures { (k : ℕ) (x y : List (ℕ × Place)) → IsTable places.old (x ++ (item_places k self ++ y)) → IsTable places.new (x ++ y) }
    {
        let mut inside = self.inside;
        match self.closer {
            Some(closer) => {
                forget_inside(places, &mut inside, 0);
                forget(places, closer.id);
                forget(places, self.first);
            }
            None => forget(places, self.first),
        }
    }

    /// The lemma and the inside of a block, which loses its closer.
    pub fn unclose(self, places: &mut Places) -> (u64, Vec<u64>)
        ensures lemma { result.0 ≡ first_of self }
        ensures inside { IsBlock self → result.1.items ≡ inside_of self }
        ensures table { IsBlock self → (k : ℕ) (x y : List (ℕ × Place)) → IsTable places.old (x ++ (item_places k self ++ y)) →
            IsTable places.new (x ++ (((first_of self, record { item = k; part = First }) ∷ inner_places k 1 (inside_of self)) ++ y)) }
    {
        match self.closer {
            Some(closer) => {
                forget(places, closer.id);
                (self.first, self.inside)
            }
            None => (self.first, self.inside),
        }
    }
}

/// What a part of the block is in which the cursor stands; its closer is behind the cursor.
pub(crate) fn open_site(part: Part, stop: u64) -> Site
    ensures { result ≡ open_part_site part stop }
{
    match part {
        Part::First => Site::OpenLemma,
        Part::Inside(_) => Site::OpenInner,
        Part::Closer => Site::Behind(stop),
    }
}

/// The id before a part of a block with this lemma and this inside, or another where it is the lemma.
pub(crate) fn before_in(lemma: u64, inside: &[u64], part: Part, other: u64) -> u64
    ensures { result ≡ last_or other (block_front part lemma inside.now) }
{
    let number = match part {
        Part::First => return other,
        Part::Inside(number) => number.saturating_sub(1).min(inside.len()),
        Part::Closer => inside.len(),
    };
    if number == 0 {
        lemma
    } else {
        inside[number - 1]
    }
}
