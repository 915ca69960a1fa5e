//! The law that joins the format to the machine.
ghost use Rattle.std.specs.Prelude.{◌≡◌, ◌<◌, ℕ, List};
ghost use Rattle.sexp_theory.specs.Places.{Found, IsFound, IsFoundBehindLine};
ghost use Rattle.sexp_theory.specs.Machine.{found, found_behind_line};

/// What stands first in a text, by the words of the format, is what the machine computes, and nothing else. The
/// longest item has `limit` bytes; the text begins at the offset `at`, and, in the clauses of lines, inside a line that is passed over.
pub fn reading_is_computed()
    ensures computed { (limit at : ℕ) (text : List ℕ) → 0 < limit → IsFound limit at text (found limit at text) }
    ensures is { (limit at : ℕ) (text : List ℕ) (f : Found) → IsFound limit at text f → found limit at text ≡ f }
    ensures one { (limit at : ℕ) (text : List ℕ) (f g : Found) → IsFound limit at text f → IsFound limit at text g → f ≡ g }
    ensures line_computed { (limit at : ℕ) (text : List ℕ) → 0 < limit → IsFoundBehindLine limit at text (found_behind_line limit at text) }
    ensures line_is { (limit at : ℕ) (text : List ℕ) (f : Found) → IsFoundBehindLine limit at text f → found_behind_line limit at text ≡ f }
{}
