//! Ids that go.
ghost use Rattle.std.specs.Prelude.{◌≡◌, ℕ, List, ◌∷◌, ◌++◌, take};
ghost use Rattle.vcs_graph.specs.declared.place.Place.{Place};
ghost use Rattle.vcs_graph.specs.Table.{IsTable, inner_places, items_places};

use crate::segment::Segment;
use crate::table::{Places, forget};

/// Of the inside of a block this many entries stay.
pub(crate) fn forget_inside(places: &mut Places, inside: &mut Vec<u64>, keep: usize)
    ensures items { inside.new.items ≡ take keep inside.old.items }
    ensures table { (k : ℕ) (x y : List (ℕ × Place)) → IsTable places.old (x ++ (inner_places k 1 inside.old.items ++ y)) →
        IsTable places.new (x ++ (inner_places k 1 inside.new.items ++ y)) }
{
    while inside.len() > keep {
        if let Some(id) = inside.pop() {
            forget(places, id);
        }
    }
}

/// Of the items this many stay.
pub(crate) fn forget_items(places: &mut Places, items: &mut Vec<Segment>, keep: usize)
    ensures items { items.new.items ≡ take keep items.old.items }
    ensures table { (x : List (ℕ × Place)) → IsTable places.old (x ++ items_places 0 items.old.items) →
        IsTable places.new (x ++ items_places 0 items.new.items) }
{
    while items.len() > keep {
        if let Some(segment) = items.pop() {
            segment.forget_all(places);
        }
    }
}
