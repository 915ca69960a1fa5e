//! The graph.
ghost use Rattle.std.specs.Prelude.{
  ◌≡◌,
  ℕ,
  ◌+◌,
  ◌^◌,
  ◌≤◌,
  ◌<◌,
  [],
  ◌∷◌,
  ◌++◌,
  drop,
  length,
  true,
  false,
  IsTrue,
  ◌↔◌,
  Some,
  None,
  IsOk,
  IfOk,
  OnOk,
  OnErr,
};
ghost use Rattle.line_theory.specs.Lists.{has, last_or};
ghost use Rattle.line_theory.specs.Lines.{
  empty,
  ids,
  front,
  before,
  cursor,
  tip,
  committed,
  begun,
  merged,
  refolded,
  AtEnd,
  InProof,
  InZone,
  zone_in,
  items_ids,
  Opens,
  zoned,
  Drops,
  dropped,
};
ghost use Rattle.line_theory.specs.Edits.{seat, lost};
ghost use Rattle.vcs_graph.specs.Blocks.{block_in, inside_in, inside_last, open_in};
ghost use Rattle.vcs_graph.specs.Branches.{Branches, branched, IsZone};
ghost use Rattle.vcs_graph.specs.GraphView.{IsStart};
ghost use Rattle.vcs_graph.specs.Sums.{sum_to};
ghost use Rattle.vcs_graph.specs.Removals.{Stands, cleared, Narrows, narrowed};
ghost use Rattle.vcs_graph.specs.Sites.{seat_site, place_site};

use crate::cut::{cut_behind, cut_from, keep_of};
use crate::ending::Ending;
use crate::forget::forget_items;
use crate::list::{put_items, put_rest};
use crate::place::{Part, Place};
use crate::segment::{Closer, Segment, open_site};
use crate::site::Site;
use crate::sizes::Sizes;
use crate::table::{Places, find, put, put_sized};
use base_core::{Ids, NoMemory, SparedSequence};
use indexmap::IndexMap;
use std::alloc::Global;
use std::marker::Model;

/// The item in which the zone is, and how many ids stand before it.
#[derive(Clone, Copy)]
pub struct Opened {
    pub item: usize,
    pub start: usize,
}

/// A block: its lemma, its closer if it has one, and whether an opaque merge closed it.
#[derive(Clone, Copy)]
pub struct Block {
    pub start: u64,
    pub stop: Option<u64>,
    pub opaque: bool,
}

/// A branch that begins at an id.
#[derive(Clone, Copy)]
pub enum Branch {
    /// The block of this lemma, which is the id.
    Proof(u64),
    /// A zone in the block with this lemma and this closer.
    Zone(u64, u64),
}

/// The line of live ids.
#[derive(Drop)]
pub struct Graph {
    items: Vec<Segment>,
    sizes: Sizes,
    ending: Ending,
    zone: Option<Opened>,
    places: Places,
}

impl Model for Graph {
    ghost use Rattle.line_theory.specs.Lines.{Line};

    ghost Value = { Line };

    ghost use Rattle.vcs_graph.specs.GraphView.{line_of, Whole};

    ghost view = { λ g. line_of g.items.items g.ending g.zone };

    ghost invariant = { λ g. Whole g.items.items g.ending g.zone g.places g.sizes };
}

impl Graph {
    /// The empty line. It takes no memory.
    pub fn new(alloc: Global) -> Result<Graph, NoMemory>
        ensures empty { IfOk result (λ g. g ≡ empty) }
        ensures ok { IsOk result }
    {
        Ok(Graph {
            items: Vec::new(alloc),
            sizes: Sizes::new(alloc),
            ending: Ending::new(alloc),
            zone: None,
            places: IndexMap::new(alloc),
        })
    }

    /// The allocator of the graph.
    pub fn allocator(&self) -> Global {
        *self.items.allocator()
    }

    /// How many ids the line has.
    pub fn len(&self) -> usize
        ensures { result ≡ length (ids self.now) }
    {
        self.places.len()
    }

    /// All ids of the line, in order.
    pub fn line(&self) -> Result<Ids, NoMemory>
        ensures { IfOk result (λ l. l ≡ ids self.now) }
    {
        let mut list = SparedSequence::new(self.allocator());
        list.reserve(self.places.len())?;
        put_items(self.items.as_slice(), &mut list);
        self.ending.put_from(Part::First, &mut list);
        Ok(Ids::from_vec(list.into_vec()))
    }

    /// What an id is in the line.
    pub fn site(&self, id: u64) -> Site
        ensures { result ≡ seat_site (seat id self.now) }
    {
        let Some(place) = find(&self.places, id) else {
            return Site::Nowhere;
        };
        let Some(zone) = self.zone else {
            return part_site(self.items.as_slice(), place);
        };
        if place.item < zone.item {
            return part_site(self.items.as_slice(), place);
        }
        let stop = self.items[zone.item].stop();
        if place.item == zone.item {
            open_site(place.part, stop)
        } else {
            Site::Behind(stop)
        }
    }

    /// Whether an id is in the line.
    pub fn live(&self, id: u64) -> bool
        ensures { IsTrue result ↔ (has id (ids self.now) ≡ true) }
    {
        self.places.contains_key(&id)
    }

    /// The last id of the line, or 1.
    pub fn tip(&self) -> u64
        ensures { result ≡ tip self.now }
    {
        self.ending.last_or(last_of(self.items.as_slice()))
    }

    /// The id before the cursor, or 1.
    pub fn cursor(&self) -> u64
        ensures { result ≡ cursor self.now }
    {
        match self.zone {
            Some(zone) => self.items[zone.item].last_inside(),
            None => self.ending.last_or(last_of(self.items.as_slice())),
        }
    }

    /// The lemma and the kept closer of the zone.
    pub fn zone(&self) -> Option<(u64, u64)>
        ensures { result ≡ zone_in self.now.focus }
    {
        match self.zone {
            Some(zone) => match self.items[zone.item].closer() {
                Some(closer) => Some((self.items[zone.item].first(), closer.id)),
                None => None,
            },
            None => None,
        }
    }

    /// The lemma of the block in which the cursor stands: the zone's block, or the one that is open at the end.
    pub fn open_lemma(&self) -> Option<u64>
        ensures { result ≡ open_in self.now.focus }
    {
        match self.zone {
            Some(zone) => Some(self.items[zone.item].first()),
            None => self.ending.lemma(),
        }
    }

    /// What is inside of the block in which the cursor stands, up to the cursor; nothing where it stands in none.
    pub fn open_inside(&self) -> &[u64]
        ensures { result.now ≡ inside_in self.now.focus }
    {
        match self.zone {
            Some(zone) => self.items[zone.item].inside(),
            None => self.ending.inside(),
        }
    }

    /// What is inside of the last item, where no block is open: of the block that was closed last; nothing where that item is no block.
    pub fn closed_inside(&self) -> &[u64]
        requires { AtEnd self.now.focus }
        ensures { result.now ≡ inside_last self.now.items }
    {
        inside_of_last(self.items.as_slice())
    }

    /// The id before one that is in the line, or 1.
    pub fn before(&self, id: u64) -> u64
        requires { has id (ids self.now) ≡ true }
        ensures { result ≡ before id self.now }
    {
        let Some(place) = find(&self.places, id) else {
            return 1;
        };
        if place.item < self.items.len() {
            let other = last_of(&self.items.as_slice()[..place.item]);
            self.items[place.item].before_part(place.part, other)
        } else {
            let other = last_of(self.items.as_slice());
            self.ending.before_part(place.part, other)
        }
    }

    /// The block that holds an id, if one does.
    pub fn block(&self, id: u64) -> Option<Block>
        ensures { result ≡ block_in id (refolded self.now) }
    {
        let Some(place) = find(&self.places, id) else {
            return None;
        };
        if place.item < self.items.len() {
            let segment = &self.items[place.item];
            match segment.closer() {
                Some(closer) => Some(Block {
                    start: segment.first(),
                    stop: Some(closer.id),
                    opaque: closer.opaque,
                }),
                None => None,
            }
        } else {
            match self.ending.lemma() {
                Some(lemma) => Some(Block {
                    start: lemma,
                    stop: None,
                    opaque: false,
                }),
                None => None,
            }
        }
    }

    /// A sentence that neither begins nor closes a proof comes in behind the cursor; answers its position.
    pub fn commit(&mut self, id: u64) -> Result<u64, NoMemory>
        requires named { 2 ≤ id }
        requires new { has id (ids self.old) ≡ false }
        ensures ok { OnOk result (self.new ≡ committed id self.old) }
        ensures at { IfOk result (λ n. n ≡ length (front self.old)) }
        ensures err { OnErr result (self.new ≡ self.old) }
    {
        let at = self.places.len();
        match self.zone {
            Some(zone) => {
                let inside = self.items[zone.item].inside_len();
                self.items[zone.item].grow(&mut self.places, zone.item, id)?;
                self.sizes.set(zone.item, inside + 3);
                Ok((zone.start + 1 + inside) as u64)
            }
            None => {
                let item = self.items.len();
                if self.ending.lemma().is_some() {
                    self.ending.grow(&mut self.places, item, id)?;
                } else {
                    let alloc = *self.items.allocator();
                    self.items.reserve(1)?;
                    let part = Part::First;
                    put_sized(
                        &mut self.sizes,
                        1,
                        &mut self.places,
                        id,
                        Place { item, part },
                    )?;
                    self.items.push(Segment::lone(alloc, id))?;
                }
                Ok(at as u64)
            }
        }
    }

    /// A branch begins at an id: of a new id its block, which is opened behind the cursor; of an id of the line a zone,
    /// which takes no memory. Answers the id's position.
    pub fn branch_at(&mut self, id: u64, branch: Branch) -> Result<u64, NoMemory>
        requires { Branches id branch self.old }
        ensures ok { OnOk result (self.new ≡ branched id branch self.old) }
        ensures at { IfOk result (λ n. n + 1 ≡ length (front self.new)) }
        ensures err { OnErr result (self.new ≡ self.old) }
        ensures zone { IsZone branch → IsOk result }
    {
        match branch {
            Branch::Proof(_) => self.begin(id),
            Branch::Zone(_, _) => Ok(self.open_zone(id)),
        }
    }

    /// A lemma comes in and opens its block; answers its position.
    pub fn begin(&mut self, id: u64) -> Result<u64, NoMemory>
        requires named { 2 ≤ id }
        requires new { has id (ids self.old) ≡ false }
        requires end { AtEnd self.old.focus }
        ensures ok { OnOk result (self.new ≡ begun id self.old) }
        ensures at { IfOk result (λ n. n ≡ length (front self.old)) }
        ensures err { OnErr result (self.new ≡ self.old) }
    {
        let at = self.places.len();
        let item = self.items.len();
        let part = Part::First;
        put(&mut self.places, id, Place { item, part })?;
        self.ending.begin(id);
        Ok(at as u64)
    }

    /// A closer comes in and closes the block that is open at the cursor; answers its position.
    pub fn merge(&mut self, id: u64, opaque: bool) -> Result<u64, NoMemory>
        requires named { 2 ≤ id }
        requires new { has id (ids self.old) ≡ false }
        requires in_proof { InProof self.old.focus }
        ensures ok { OnOk result (self.new ≡ merged id opaque self.old) }
        ensures at { IfOk result (λ n. n ≡ length (front self.old)) }
        ensures err { OnErr result (self.new ≡ self.old) }
    {
        let at = self.places.len();
        let item = self.items.len();
        let part = Part::Closer;
        let size = self.ending.inside_len() + 2;
        self.items.reserve(1)?;
        put_sized(
            &mut self.sizes,
            size,
            &mut self.places,
            id,
            Place { item, part },
        )?;
        let segment = self.ending.close(Closer { id, opaque });
        self.items.push(segment)?;
        Ok(at as u64)
    }

    /// A zone is opened behind an id of a block that can be opened again: what stands between it and the closer goes; answers its position.
    pub fn open_zone(&mut self, id: u64) -> u64
        requires live { has id (ids self.old) ≡ true }
        requires opens { Opens id self.old }
        ensures zone { self.new ≡ zoned id self.old }
        ensures at { result + 1 ≡ length (front self.new) }
    {
        let _total = self.places.len();
        let Some(place) = find(&self.places, id) else {
            return 0;
        };
        let keep = keep_of(place.part);
        let start = start_of(self.zone, &self.sizes, place.item);
        self.items[place.item].shorten(&mut self.places, keep);
        self.sizes.set(place.item, keep + 2);
        self.zone = Some(Opened {
            item: place.item,
            start,
        });
        (start + keep) as u64
    }

    /// All behind an id goes, and no zone is open any more; behind 1 all ids go.
    pub fn drop_after(&mut self, id: u64)
        requires { Drops id self.old }
        ensures { self.new ≡ dropped id self.old }
    {
        let _total = self.places.len();
        let found = find(&self.places, id);
        self.zone = None;
        if id == 1 {
            self.ending.clear(&mut self.places);
            forget_items(&mut self.places, &mut self.items, 0);
            self.sizes.truncate(0);
            return;
        }
        let Some(place) = found else {
            return;
        };
        if place.item < self.items.len() {
            cut_behind(&mut self.items, &mut self.ending, &mut self.places, place);
            self.sizes.truncate(self.items.len());
        } else {
            self.ending.shorten(&mut self.places, keep_of(place.part));
        }
    }

    /// An id that stands before the cursor goes, and all behind it, which are listed; no zone is open any more.
    pub fn cut_before(&mut self, id: u64, gone: &mut SparedSequence<u64>)
        requires stands { Stands (seat id self.old) }
        requires room { length (ids self.old) ≤ gone.old.spare }
        ensures line { self.new ≡ cleared id self.old }
        ensures gone { gone.new.items ≡ gone.old.items ++ lost self.old self.new }
        ensures room { length (ids self.new) ≤ gone.new.spare }
    {
        let Some(place) = find(&self.places, id) else {
            return;
        };
        put_rest(self.items.as_slice(), &self.ending, place, gone);
        self.zone = None;
        if place.item < self.items.len() {
            cut_from(&mut self.items, &mut self.ending, &mut self.places, place);
            self.sizes.truncate(self.items.len());
        } else {
            self.ending.cut_from(&mut self.places, place.part);
        }
    }

    /// An id inside of a block goes, and what stands between it and the closer, or the cursor, which are listed; the zone is open
    /// where it stood.
    pub fn zone_before(&mut self, id: u64, gone: &mut SparedSequence<u64>)
        requires narrows { Narrows id self.old }
        requires room { length (ids self.old) ≤ gone.old.spare }
        ensures line { self.new ≡ narrowed id self.old }
        ensures gone { gone.new.items ≡ gone.old.items ++ lost self.old self.new }
        ensures room { length (ids self.new) ≤ gone.new.spare }
    {
        let _total = self.places.len();
        let Some(place) = find(&self.places, id) else {
            return;
        };
        let Part::Inside(number) = place.part else {
            return;
        };
        let keep = number.saturating_sub(1);
        let start = start_of(self.zone, &self.sizes, place.item);
        self.items[place.item].put_inside(keep, gone);
        self.items[place.item].shorten(&mut self.places, keep);
        self.sizes.set(place.item, keep + 2);
        self.zone = Some(Opened {
            item: place.item,
            start,
        });
    }

    /// The zone is closed: its closer stays where it is, and the cursor stands at the end; answers the closer's position.
    pub fn rewrite_merge(&mut self) -> Result<u64, NoMemory>
        requires { InZone self.old.focus }
        ensures line { self.new ≡ refolded self.old }
        ensures at { IfOk result (λ n. n ≡ length (front self.old)) }
        ensures ok { IsOk result }
    {
        let Some(zone) = self.zone else {
            return Err(NoMemory);
        };
        let total = self.places.len();
        let inside = self.items[zone.item].inside_len();
        self.zone = None;
        Ok((zone.start + 1 + inside) as u64)
    }
}

/// What the id at a place is, where no zone is open before it.
fn part_site(items: &[Segment], place: Place) -> Site
    ensures { result ≡ place_site place.part (drop place.item items.now) }
{
    if place.item < items.len() {
        items[place.item].site(place.part)
    } else {
        open_site(place.part, 1)
    }
}

/// The last id of some items, or 1.
fn last_of(items: &[Segment]) -> u64
    ensures { result ≡ last_or 1 (items_ids items.now) }
{
    let len = items.len();
    if len == 0 { 1 } else { items[len - 1].last() }
}

/// What is inside of the last of some items.
fn inside_of_last(items: &[Segment]) -> &[u64]
    ensures { result.now ≡ inside_last items.now }
{
    let len = items.len();
    if len == 0 {
        &[]
    } else {
        items[len - 1].inside()
    }
}

/// How many ids stand before the item in which a zone is opened, the items having these sizes.
fn start_of(zone: Option<Opened>, sizes: &Sizes, item: usize) -> usize
    requires { item ≤ length sizes.now }
    ensures { IsStart zone (sum_to item sizes.now) result }
{
    match zone {
        Some(zone) => zone.start,
        None => sizes.sum_to(item),
    }
}
