//! The laws of the items of a text.
ghost use Rattle.std.specs.Prelude.{◌≡◌, ◌<◌, ℕ, List, Bool, true, Some, None};
ghost use Rattle.sexp_theory.specs.Items.{Item, Unread, next_item, items_of, end_of};
ghost use Rattle.sexp_theory.specs.ItemWords.{IsItem, HasNoItem, AreItems, EndsAs};
ghost use Rattle.sexp_theory.specs.declared.input.InputEnd.{InputEnd};

/// The items of a text and how the input ends, by the words of the format, are what is computed, and nothing else.
/// The longest item has `limit` bytes; `ended` says that the text is the whole input.
pub fn items_are_computed()
    ensures first { (limit : ℕ) (ended : Bool) (u : Unread) (item : Item) (rest : Unread) → IsItem limit ended u item rest
        → next_item limit ended u ≡ Some (record { item = item; rest = rest }) }
    ensures none { (limit : ℕ) (ended : Bool) (u : Unread) → HasNoItem limit ended u → next_item limit ended u ≡ None }
    ensures items_computed { (limit : ℕ) (ended : Bool) (u : Unread) → 0 < limit → AreItems limit ended u (items_of limit ended u) }
    ensures items_are { (limit : ℕ) (ended : Bool) (u : Unread) (items : List Item) → AreItems limit ended u items
        → items_of limit ended u ≡ items }
    ensures items_one { (limit : ℕ) (ended : Bool) (u : Unread) (items others : List Item) → AreItems limit ended u items
        → AreItems limit ended u others → items ≡ others }
    ensures end_computed { (limit : ℕ) (u : Unread) → 0 < limit → EndsAs limit u (items_of limit true u) (end_of limit u) }
    ensures end_is { (limit : ℕ) (u : Unread) (items : List Item) (end : InputEnd) → EndsAs limit u items end → end_of limit u ≡ end }
{}
