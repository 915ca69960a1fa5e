//! What an edit, a removal and a Cancel make of the line.
ghost use Rattle.std.specs.Prelude.{◌≡◌, false, nat_eq, ℕ, List};
ghost use Rattle.line_theory.specs.Lists.{has, Distinct, IsCut};
ghost use Rattle.line_theory.specs.Lines.{Line, before, ids};
ghost use Rattle.line_theory.specs.Edits.{by_before, seat, edited, removed, IfChanged, lost, cancelled};
ghost use Rattle.line_theory.specs.Placed.{IsCutBehind, IsCutFrom, ByPlace};

/// An edit at an id takes one piece out behind it, and the cursor stands behind it; a removal takes the id and the
/// piece behind it, and the cursor stands where the id stood. Each is refused exactly where the id stands behind the
/// cursor, in the tail of a zone, and finds nothing exactly where the id isn't there. Where no id is twice, the ids
/// that are told as gone are that piece, in order; and a Cancel leaves no id twice.
pub fn edits_and_removals_cut()
    ensures edited { (d : Line) (i : ℕ) → nat_eq i 1 ≡ false → IfChanged (IsCutBehind i d) (edited i d) }
    ensures edited_by_place { (d : Line) (i : ℕ) → nat_eq i 1 ≡ false → ByPlace i d (edited i d) }
    ensures removed { (d : Line) (i : ℕ) → IfChanged (IsCutFrom i d) (removed i d) }
    ensures removed_by_place { (d : Line) (i : ℕ) → ByPlace i d (removed i d) }
    ensures behind { (d e : Line) (i : ℕ) → IsCutBehind i d e → IsCut (ids d) (ids e) }
    ensures from { (d e : Line) (i : ℕ) → IsCutFrom i d e → IsCut (ids d) (ids e) }
    ensures gone { (d e : Line) (c : IsCut (ids d) (ids e)) → Distinct (ids d) → lost d e ≡ c.gone }
    ensures distinct { (is : List ℕ) (d : Line) → Distinct (ids d) → Distinct (ids (cancelled is d).line) }
{}

/// A removal by the id before: where no zone is open, an id inside of a block that takes one opens it behind that id,
/// and any other id goes with all behind that id; where a zone is open, each is the edit at that id.
pub fn a_removal_is_the_edit_before()
    ensures { (i : ℕ) (d : Line) → Distinct (ids d) → has 1 (ids d) ≡ false → removed i d ≡ by_before (before i d) (seat i d) d }
{}
