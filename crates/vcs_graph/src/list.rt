//! Ids that are listed in the order of the line, without memory.
ghost use Rattle.std.specs.Prelude.{◌≡◌, ℕ, ◌+◌, ◌≤◌, List, ◌++◌, drop, length};
ghost use Rattle.line_theory.specs.Lines.{items_ids, end_ids};
ghost use Rattle.vcs_graph.specs.Parts.{rest_at};

use crate::ending::Ending;
use crate::place::{Part, Place};
use crate::segment::Segment;
use base_core::SparedSequence;

/// Some ids are listed.
pub(crate) fn put_ids(ids: &[u64], list: &mut SparedSequence<u64>)
    requires room { length ids.now ≤ list.old.spare }
    ensures items { list.new.items ≡ list.old.items ++ ids.now }
    ensures room { list.old.spare ≤ list.new.spare + length ids.now }
{
    for id in ids {
        list.push_reserved(*id);
    }
}

/// The ids of some items are listed.
pub(crate) fn put_items(items: &[Segment], list: &mut SparedSequence<u64>)
    requires room { length (items_ids items.now) ≤ list.old.spare }
    ensures items { list.new.items ≡ list.old.items ++ items_ids items.now }
    ensures room { list.old.spare ≤ list.new.spare + length (items_ids items.now) }
{
    for item in items {
        item.put_from(Part::First, list);
    }
}

/// The id at a place is listed, and all behind it.
pub(crate) fn put_rest(
    items: &[Segment],
    ending: &Ending,
    place: Place,
    list: &mut SparedSequence<u64>,
)
    requires room { length (items_ids items.now) + length (end_ids ending.now) ≤ list.old.spare }
    ensures items { list.new.items ≡ list.old.items ++ rest_at place.part (drop place.item items.now) ending.now }
    ensures room { list.old.spare ≤ list.new.spare + length (rest_at place.part (drop place.item items.now) ending.now) }
{
    if place.item < items.len() {
        items[place.item].put_from(place.part, list);
        put_items(&items[place.item + 1..], list);
        ending.put_from(Part::First, list);
    } else {
        ending.put_from(place.part, list);
    }
}
