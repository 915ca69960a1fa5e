//! What goes at the end of the items.
ghost use Rattle.std.specs.Prelude.{◌≡◌, ℕ, ◌<◌, List, [], ◌∷◌, ◌++◌, length, take};
ghost use Rattle.line_theory.specs.Shapes.{Item, block, closed, proof};
ghost use Rattle.line_theory.specs.Lines.{Closing};
ghost use Rattle.vcs_graph.specs.Table.{IsTable, items_places, all_places};
ghost use Rattle.vcs_graph.specs.Parts.{keep, cut_items, cut_end, left_end};

use crate::ending::Ending;
use crate::forget::forget_items;
use crate::place::{Part, Place};
use crate::segment::Segment;
use crate::table::Places;

/// All behind a place goes, and where its block has lost its closer, it is open at the end.
pub(crate) fn cut_behind(
    items: &mut Vec<Segment>,
    ending: &mut Ending,
    places: &mut Places,
    place: Place,
)
    requires item { place.item < length items.old.items }
    ensures items { (f t : List (Item ℕ Closing)) (x : Item ℕ Closing) → items.old.items ≡ f ++ (x ∷ t) → length f ≡ place.item
        → items.new.items ≡ cut_items place.part f x }
    ensures end { (f t : List (Item ℕ Closing)) (x : Item ℕ Closing) → items.old.items ≡ f ++ (x ∷ t) → length f ≡ place.item →
        ending.new ≡ cut_end place.part x }
    ensures table { IsTable places.old (all_places items.old.items ending.old) →
        IsTable places.new (all_places items.new.items ending.new) }
{
    ending.clear(places);
    forget_items(places, items, place.item + 1);
    if items[place.item].opens_behind(place.part) {
        reopen_last(items, ending, places, keep_of(place.part));
    }
}

/// The id at a place goes, and all behind it; where its block has lost its closer and not its lemma, it is open at the end.
pub(crate) fn cut_from(
    items: &mut Vec<Segment>,
    ending: &mut Ending,
    places: &mut Places,
    place: Place,
)
    requires item { place.item < length items.old.items }
    ensures items { (f t : List (Item ℕ Closing)) (x : Item ℕ Closing) → items.old.items ≡ f ++ (x ∷ t) → length f ≡ place.item
        → items.new.items ≡ f }
    ensures end { (f t : List (Item ℕ Closing)) (x : Item ℕ Closing) → items.old.items ≡ f ++ (x ∷ t) → length f ≡ place.item →
        ending.new ≡ left_end place.part x }
    ensures table { IsTable places.old (all_places items.old.items ending.old) →
        IsTable places.new (all_places items.new.items ending.new) }
{
    ending.clear(places);
    if items[place.item].opens_from(place.part) {
        forget_items(places, items, place.item + 1);
        let keep = items[place.item].kept_before(place.part);
        reopen_last(items, ending, places, keep);
    } else {
        forget_items(places, items, place.item);
    }
}

/// The last item, a block, loses its closer and what stands inside of it behind so many; the rest is open at the end.
fn reopen_last(items: &mut Vec<Segment>, ending: &mut Ending, places: &mut Places, keep: usize)
    ensures items { (f : List (Item ℕ Closing)) (l : ℕ) (b : List ℕ) (c : Closing) → items.old.items ≡ f ++ (block l b c ∷ []) →
        items.new.items ≡ f }
    ensures end { (f : List (Item ℕ Closing)) (l : ℕ) (b : List ℕ) (c : Closing) → items.old.items ≡ f ++ (block l b c ∷ []) →
        ending.new ≡ proof l (take keep b) }
    ensures table { (f : List (Item ℕ Closing)) (l : ℕ) (b : List ℕ) (c : Closing) → items.old.items ≡ f ++ (block l b c ∷ []) →
        IsTable places.old (items_places 0 items.old.items) → IsTable places.new (all_places items.new.items ending.new) }
{
    if let Some(segment) = items.pop() {
        let (lemma, inside) = segment.unclose(places);
        ending.put_back(lemma, inside);
        ending.shorten(places, keep);
    }
}

/// How much of an inside stays where all behind a part goes.
pub(crate) fn keep_of(part: Part) -> usize
    ensures { result ≡ keep part }
{
    match part {
        Part::First => 0,
        Part::Inside(number) => number,
        Part::Closer => 0,
    }
}
