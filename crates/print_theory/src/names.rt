//! The laws of printed names.
ghost use Rattle.std.specs.Prelude.{◌≡◌, ◌<◌, ◌∷◌, ℕ, List, length, Some, None, false};
ghost use Rattle.vern_sentence.specs.Names.{IsFreeName};
ghost use Rattle.fol_theory.specs.Syntax.{Formula};
ghost use Rattle.elab_theory.specs.Sentences.{is_among};
ghost use Rattle.print_theory.specs.Names.{IsDistinct, IsPicked, name_of, picked, position};
ghost use Rattle.print_theory.specs.Printing.{bound_name};
ghost use Rattle.print_theory.specs.Apart.{IsApart, IsApartFormula};

/// A picked name is the name itself or has the least number with which it isn't used. It is the only such name, it
/// isn't used, and it is a free name if the name is.
pub fn picked_names_are_new()
    ensures picked { (x : List ℕ) (used : List (List ℕ)) → IsPicked x used (picked x used) }
    ensures once { (x : List ℕ) (used : List (List ℕ)) (y z : List ℕ) → IsPicked x used y → IsPicked x used z → y ≡ z }
    ensures unused { (x : List ℕ) (used : List (List ℕ)) → is_among (picked x used) used ≡ false }
    ensures free { (x : List ℕ) (used : List (List ℕ)) → IsFreeName x → IsFreeName (picked x used) }
{}

/// Names of which no two are equal tell which variable each is of, and no other name tells one. So it stays behind a
/// binder, with the name that is picked for it; and what a formula names, where it is taken and no variable's, stays so.
pub fn printed_names_tell_their_variables()
    ensures variable { (names : List (List ℕ)) (i : ℕ) → IsDistinct names → i < length names → position (name_of names i) names ≡ Some i }
    ensures no_variable { (names : List (List ℕ)) (c : List ℕ) → is_among c names ≡ false → position c names ≡ None }
    ensures distinct { (names taken : List (List ℕ)) (x : List ℕ) → IsDistinct names → IsDistinct (bound_name names taken x ∷ names) }
    ensures apart { (names taken : List (List ℕ)) (x c : List ℕ) → IsApart names taken c
        → IsApart (bound_name names taken x ∷ names) taken c }
    ensures formula_apart { (names taken : List (List ℕ)) (x : List ℕ) (a : Formula) → IsApartFormula names taken a
        → IsApartFormula (bound_name names taken x ∷ names) taken a }
{}
