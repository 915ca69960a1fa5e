//! The line of live ids.
ghost use Rattle.std.specs.Prelude.{◌≡◌, ◌++◌, ◌∷◌, ℕ, List, map, take, drop};
ghost use Rattle.line_theory.specs.Shapes.{block};
ghost use Rattle.doc_theory.specs.Documents.{Sentence, Entry, Item, Document, ids, tip};
ghost use Rattle.doc_theory.specs.Editing.{attempt, among, at_inner, open_inner, edit, remove_at, remove};
ghost use Rattle.doc_theory.specs.Checks.{Check, judged, before, works};
ghost use Rattle.doc_theory.specs.Answers.{due, all_due, told_to};
ghost use Rattle.doc_theory.specs.Histories.{Event, standing, up_to_closers};
ghost use Rattle.doc_theory.specs.Invariants.{IfChanged};
ghost use Rattle.doc_theory.specs.Line.{line, IsAddedTo, IsOpen, HasIds};
ghost use Rattle.line_theory.specs.Lists.{last_or, IsCut};

/// Each change of a document is one change of its line: a removal takes one piece out, and a sentence that is added
/// puts the next id in at one place, or leaves the line as it is where it closes a zone. So ids stay distinct, and what
/// a Join tells and asks for is what an Exec of the tip tells and asks for; and an Exec that has told the first of what
/// is due has the others left, as they were.
pub fn line_changes_at_one_place<S>()
    ensures ids { (d : Document) → ids d ≡ line d }
    ensures removed { (d : Document) (i : ℕ) → IfChanged (λ e. IsCut (line d) (line e)) (remove d i) }
    ensures added { (d : Document) (p : ℕ) (x : Sentence) → IsAddedTo d (attempt d p x) }
    ensures distinct { (L : Check S) (limit : ℕ) (h : List Event) → HasIds (standing L limit h).document }
    ensures tip { (L : Check S) (d : Document) → HasIds d → before (tip d) (judged L d) ≡ judged L d }
    ensures turn { (L : Check S) (d : Document) (i n : ℕ) → HasIds d → due L (told_to (take n (due L d i)) d) i ≡ drop n (due L d i) }
    ensures join_asks { (L : Check S) (d : Document) → HasIds d → up_to_closers L d (tip d) ≡ works L d }
    ensures join { (L : Check S) (d : Document) → HasIds d → all_due L d ≡ due L d (tip d) }
{}

/// A sentence that is removed inside of a block takes the edit of the one before it: what `remove_at` makes of such a
/// seat is the edit at the last id of the front that stays, or at the lemma.
pub fn removal_is_an_edit()
    ensures inside { (d : Document) (a t : List Item) (l : Entry) (f : List Entry) (e : Entry) (k : List Entry) (c : Entry) →
        HasIds d → d.items ≡ a ++ (block l (f ++ (e ∷ k)) c ∷ t) → edit d (last_or l.id (map (λ x. x.id) f))
        ≡ remove_at (among (at_inner a l f e k c t)) d }
    ensures at_cursor { (d : Document) (l : Entry) (f : List Entry) (e : Entry) (k : List Entry) → HasIds d →
        IsOpen d.focus l (f ++ (e ∷ k)) → edit d (last_or l.id (map (λ x. x.id) f)) ≡ remove_at (open_inner l f e k) d }
{}
