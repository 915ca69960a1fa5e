//! The laws of bytes that come in pieces.
ghost use Rattle.std.specs.Prelude.{◌≡◌, ◌≤◌, ℕ, List, ◌∷◌, ◌++◌, length, [], Bool, true, false, Some, None};
ghost use Rattle.sexp_theory.specs.Items.{Item, Unread, Taken, next_item, items_of, end_of, fed, without_gap, end_offset, last_items};
ghost use Rattle.sexp_theory.specs.ItemWords.{IsRead};

/// Bytes that come in pieces are read as one text, whatever comes later, at each limit.
///
/// `fed`, `pieces` and `pieces_end` say it in the words of the format: what is fed never changes the items before it,
/// and behind items that were read, what is left and a piece more have the items and the end that the whole has behind
/// them. `taken` and `taken_end` say it of the one item that the computed definition takes, which is the step of a
/// reader; `gap` and its like, that blanks, comments and passed over lines in front of an item don't matter. An input
/// that is ended has the items that were taken, then what `taken` gives of the rest (`last`).
pub fn pieces_are_read_as_one()
    ensures fed { (limit : ℕ) (ended : Bool) (u : Unread) (piece : List ℕ) → (later : List Item)
        × (items_of limit ended (fed u piece) ≡ items_of limit false u ++ later) }
    ensures pieces { (limit : ℕ) (ended : Bool) (u rest : Unread) (items : List Item) (piece : List ℕ) → IsRead limit u items rest
        → items_of limit ended (fed u piece) ≡ items ++ items_of limit ended (fed rest piece) }
    ensures pieces_end { (limit : ℕ) (u rest : Unread) (items : List Item) (piece : List ℕ) → IsRead limit u items rest
        → end_of limit (fed u piece) ≡ end_of limit (fed rest piece) }
    ensures taken { (limit : ℕ) (ended : Bool) (u : Unread) (t : Taken) (more : List ℕ) → next_item limit false u ≡ Some t
        → items_of limit ended (fed u more) ≡ t.item ∷ items_of limit ended (fed t.rest more) }
    ensures taken_end { (limit : ℕ) (u : Unread) (t : Taken) (more : List ℕ) → next_item limit false u ≡ Some t
        → end_of limit (fed u more) ≡ end_of limit (fed t.rest more) }
    ensures gap { (limit : ℕ) (ended : Bool) (u : Unread) (more : List ℕ)
        → items_of limit ended (fed (without_gap u) more) ≡ items_of limit ended (fed u more) }
    ensures gap_end { (limit : ℕ) (u : Unread) (more : List ℕ) → end_of limit (fed (without_gap u) more) ≡ end_of limit (fed u more) }
    ensures joined { (u : Unread) (xs ys : List ℕ) → fed (fed u xs) ys ≡ fed u (xs ++ ys) }
    ensures none { (limit : ℕ) (u : Unread) → next_item limit false u ≡ None → items_of limit false u ≡ [] }
    ensures offset { (limit : ℕ) (u : Unread) (t : Taken) → next_item limit false u ≡ Some t → end_offset t.rest ≡ end_offset u }
    ensures gap_offset { (u : Unread) → end_offset (without_gap u) ≡ end_offset u }
    ensures last { (limit : ℕ) (u : Unread) → next_item limit false u ≡ None → items_of limit true u ≡ last_items (next_item limit true u) }
    ensures few { (limit : ℕ) (ended : Bool) (u : Unread) → length (items_of limit ended u) ≤ length u.bytes }
{}
