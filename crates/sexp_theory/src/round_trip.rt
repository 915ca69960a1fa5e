//! The laws of written values.
ghost use Rattle.std.specs.Prelude.{◌≡◌, ◌≢◌, ℕ, ◌+◌, ◌<◌, ◌≤◌, List, ◌∷◌, ◌++◌, length, Bool, true, false, Some};
ghost use Rattle.std.specs.List.{All, AllPass};
ghost use Rattle.sexp_theory.specs.Values.{Value, atom, nesting, HasBytes};
ghost use Rattle.sexp_theory.specs.Signs.{is_delimiter};
ghost use Rattle.sexp_theory.specs.Spelling.{Spells};
ghost use Rattle.sexp_theory.specs.Writing.{text, is_of_text};
ghost use Rattle.sexp_theory.specs.Written.{is_bare_value, sole_item, first_item, IsOfBytes, IsShallow};
ghost use Rattle.sexp_theory.specs.Places.{most_lists, last_run, value};
ghost use Rattle.sexp_theory.specs.Machine.{found};
ghost use Rattle.sexp_theory.specs.Items.{next_item, fed, whole_text, Taken, Unread};

/// The round trip. Each value of bytes, with lists no deeper than an item may have and a text no longer, is read
/// again from its text: before a blank, as the byte 10 of a line, or another delimiter (`before_a_delimiter`);
/// whatever follows, where the text has quotes or parentheses round it (`whatever_follows`); as a run that may go
/// on, where it has none and the input may (`at_the_end`); and as the only item of the input (`alone`). So a reader
/// that was fed a line, the text and a byte 10, gives exactly the value first, whatever follows (`line`).
pub fn written_values_are_read_again()
    ensures before_a_delimiter { (limit at : ℕ) (v : Value) (b : ℕ) (rest : List ℕ) → HasBytes v → nesting v ≤ most_lists
        → length (text v) ≤ limit → is_delimiter b ≡ true
        → found limit at (text v ++ b ∷ rest) ≡ value v at (at + length (text v)) }
    ensures whatever_follows { (limit at : ℕ) (v : Value) (rest : List ℕ) → HasBytes v → nesting v ≤ most_lists → length (text v) ≤ limit
        → is_bare_value v ≡ false
        → found limit at (text v ++ rest) ≡ value v at (at + length (text v)) }
    ensures at_the_end { (limit at : ℕ) (v : Value) → HasBytes v → length (text v) ≤ limit → is_bare_value v ≡ true
        → (found limit at (text v) ≡ last_run (text v) at) × (v ≡ atom (text v)) }
    ensures alone { (limit : ℕ) (v : Value) → HasBytes v → nesting v ≤ most_lists → length (text v) ≤ limit
        → next_item limit true (whole_text (text v)) ≡ Some (sole_item v) }
    ensures line { (limit : ℕ) (ended : Bool) (v : Value) (rest : List ℕ) → HasBytes v → nesting v ≤ most_lists → length (text v) ≤ limit
        → next_item limit ended (fed (whole_text (text v)) (10 ∷ rest)) ≡ Some (first_item v (10 ∷ rest)) }
{}

/// No two values have one text, however deep they are; and a text has a byte at least, and none but a space, letters,
/// digits and signs of ASCII, so that it stands in one line.
pub fn texts_are_lines_of_one_value()
    ensures one { (v w : Value) → HasBytes v → HasBytes w → text v ≡ text w → v ≡ w }
    ensures some { (v : Value) → 0 < length (text v) }
    ensures printed { (v : Value) → HasBytes v → AllPass is_of_text (text v) }
    ensures no_line_end { (v : Value) (before after : List ℕ) → HasBytes v → text v ≢ before ++ 10 ∷ after }
{}

/// Each value that is read may be written: it is of bytes, where the input is (`of_bytes`), and has no more lists inside
/// one another than an item may have (`shallow`).
pub fn read_values_may_be_written()
    ensures of_bytes { (limit : ℕ) (ended : Bool) (u : Unread) (t : Taken) → All (λ b. b < 256) u.bytes → next_item limit ended u ≡ Some t
        → IsOfBytes t.item }
    ensures shallow { (limit : ℕ) (ended : Bool) (u : Unread) (t : Taken) → next_item limit ended u ≡ Some t → IsShallow t.item }
{}

/// The text of a value of bytes is one of the ways to spell it.
pub fn texts_spell_their_values()
    ensures { (v : Value) → HasBytes v → Spells (text v) v }
{}
