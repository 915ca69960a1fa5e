//! What each change makes of the line.
ghost use Rattle.std.specs.Prelude.{◌≡◌, ◌++◌, ◌∷◌, [], false, nat_eq, ℕ, Bool, List};
ghost use Rattle.line_theory.specs.Lists.{has, Distinct, IsCut, IsGrown};
ghost use Rattle.line_theory.specs.Shapes.{Item};
ghost use Rattle.line_theory.specs.Lines.{
  Closing,
  Line,
  ids,
  front,
  back,
  committed,
  AtEnd,
  InProof,
  begun,
  merged,
  refolded,
  Opens,
  zoned,
  Drops,
  dropped,
  locate,
};
ghost use Rattle.line_theory.specs.Flat.{Role};
ghost use Rattle.line_theory.specs.Placed.{IsSpot, IsCutBehind, by_roles, IsRuled, from_lists};

/// Closing a zone leaves the line as it is, and the cursor then stands at its end.
pub fn folding_keeps_the_line()
    ensures ids { (d : Line) → ids (refolded d) ≡ ids d }
    ensures cursor { (d : Line) → back (refolded d) ≡ [] }
{}

/// An id that comes in stands behind the cursor, and the cursor moves behind it; what stands behind the cursor
/// stays. A cut, or a zone that is opened, takes one piece out behind an id, and the cursor stands behind that id; and
/// the parts that are found round an id are those of the line.
pub fn each_change_is_at_one_place()
    ensures committed { (d : Line) (i : ℕ) → front (committed i d) ≡ front d ++ (i ∷ []) }
    ensures committed_back { (d : Line) (i : ℕ) → back (committed i d) ≡ back d }
    ensures begun { (d : Line) (i : ℕ) → AtEnd d.focus → front (begun i d) ≡ front d ++ (i ∷ []) }
    ensures begun_back { (d : Line) (i : ℕ) → AtEnd d.focus → back (begun i d) ≡ back d }
    ensures merged { (d : Line) (i : ℕ) (opaque : Bool) → InProof d.focus → front (merged i opaque d) ≡ front d ++ (i ∷ []) }
    ensures merged_back { (d : Line) (i : ℕ) (opaque : Bool) → InProof d.focus → back (merged i opaque d) ≡ back d }
    ensures dropped { (d : Line) (i : ℕ) → nat_eq i 1 ≡ false → Drops i d → IsCutBehind i d (dropped i d) }
    ensures dropped_back { (d : Line) (i : ℕ) → Drops i d → back (dropped i d) ≡ [] }
    ensures zoned { (d : Line) (i : ℕ) → Opens i d → IsCutBehind i d (zoned i d) }
    ensures located { (i : ℕ) (xs : List (Item ℕ Closing)) → IsSpot i xs (locate i xs) }
{}

/// No id is twice in a line after a cut, nor after a new id came in.
pub fn ids_stay_distinct()
    ensures cut { (old new : List ℕ) → IsCut old new → Distinct old → Distinct new }
    ensures grown { (n : ℕ) (old new : List ℕ) → IsGrown n old new → has n old ≡ false → Distinct old → Distinct new }
{}

/// A line is determined by what stands before its cursor and what stands behind it, and by what each id does.
pub fn a_line_is_two_lists()
    ensures { (role : ℕ → Role) (opaque : ℕ → Bool) (d : Line) →
        IsRuled (by_roles role opaque) d → from_lists (by_roles role opaque) (front d) (back d) ≡ d }
{}
