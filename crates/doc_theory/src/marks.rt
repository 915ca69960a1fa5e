//! What stays told, and the document as a flat list.
ghost use Rattle.std.specs.Prelude.{◌≡◌, ◌++◌, ℕ, List};
ghost use Rattle.doc_theory.specs.Documents.{Sentence, Document, live, report};
ghost use Rattle.doc_theory.specs.Editing.{attempt, remove};
ghost use Rattle.doc_theory.specs.Checks.{Check, Laws, Piece};
ghost use Rattle.doc_theory.specs.Answers.{add_all, cancel_all, due};
ghost use Rattle.doc_theory.specs.Histories.{Event, standing};
ghost use Rattle.doc_theory.specs.Invariants.{Sound, IfAdded, IfChanged};
ghost use Rattle.doc_theory.specs.Notes.{noted, Steady};
ghost use Rattle.doc_theory.specs.Flat.{IsRuled, from_lists, front, back};

/// No verdict changes while its entry stays told: what Add and Cancel leave told outside of delegated blocks was told
/// before, with the same verdict; and a result changes neither that nor what an Exec has to tell.
pub fn told_verdicts_stay<S>()
    ensures added { (L : Check S) → Laws L → (tag : List ℕ) (ps : List Piece) (d : Document) → Sound d →
        Steady L d (add_all tag ps d).document }
    ensures removed { (L : Check S) → Laws L → (tag : List ℕ) (is : List ℕ) (d : Document) → Sound d →
        Steady L d (cancel_all tag is d).document }
    ensures reported { (L : Check S) (n : ℕ) (d : Document) → noted L (report n d) ≡ noted L d }
    ensures still_due { (L : Check S) (n i : ℕ) (d : Document) → due L (report n d) i ≡ due L d i }
{}

/// A document is the entries before its cursor and those behind it, and is determined by them; each sentence that is
/// added or removed leaves it so.
pub fn document_is_a_list<S>()
    ensures everywhere { (L : Check S) (limit : ℕ) (h : List Event) → from_lists (front (standing L limit h).document)
        (back (standing L limit h).document) (standing L limit h).document.next (standing L limit h).document.limit
        ≡ (standing L limit h).document }
    ensures in_two { (d : Document) → live d ≡ front d ++ back d }
    ensures read_back { (d : Document) → IsRuled d → from_lists (front d) (back d) d.next d.limit ≡ d }
    ensures added { (d : Document) (p : ℕ) (x : Sentence) → IsRuled d → IfAdded IsRuled (attempt d p x) }
    ensures removed { (d : Document) (i : ℕ) → IsRuled d → IfChanged IsRuled (remove d i) }
{}
