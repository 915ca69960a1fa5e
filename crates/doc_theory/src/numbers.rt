//! Numbers of rows and ids, and histories that go on.
ghost use Rattle.std.specs.Prelude.{◌≡◌, ◌+◌, ◌≤◌, ◌++◌, ℕ, List};
ghost use Rattle.doc_theory.specs.Checks.{Check, Laws};
ghost use Rattle.doc_theory.specs.Documents.{Sentence, Document};
ghost use Rattle.doc_theory.specs.Editing.{attempt};
ghost use Rattle.doc_theory.specs.Histories.{Event, Legal, LegalFrom, standing, standing_from};
ghost use Rattle.doc_theory.specs.Line.{HasNext};
ghost use Rattle.doc_theory.specs.Numbers.{Counted};

/// No more rows are posted than ids are given, for each row that goes takes a sentence of its block with it. The next
/// id never falls, and rises by one with each sentence that gets it, so ids rise as they are given and none is given again.
pub fn numbers_are_counted<S>()
    ensures counted { (L : Check S) → Laws L → (limit : ℕ) (h : List Event) → Legal L limit h → Counted (standing L limit h) }
    ensures posted { (L : Check S) → Laws L → (limit : ℕ) (h : List Event) → Legal L limit h
        → (standing L limit h).table.next + 2 ≤ (standing L limit h).document.next }
    ensures rise { (L : Check S) (limit : ℕ) (h k : List Event) → (standing L limit h).document.next
        ≤ (standing L limit (h ++ k)).document.next }
    ensures given { (d : Document) (offset : ℕ) (x : Sentence) → HasNext d (attempt d offset x) }
{}

/// A history that goes on from a legal one is legal entry by entry: its standing is that of the rest from the first's.
pub fn histories_go_on<S>()
    ensures standing { (L : Check S) (limit : ℕ) (h k : List Event) → standing L limit (h ++ k) ≡ standing_from L (standing L limit h) k }
    ensures first { (L : Check S) (limit : ℕ) (h k : List Event) → Legal L limit (h ++ k) → Legal L limit h }
    ensures rest { (L : Check S) (limit : ℕ) (h k : List Event) → Legal L limit (h ++ k) → LegalFrom L (standing L limit h) k }
    ensures whole { (L : Check S) (limit : ℕ) (h k : List Event) → Legal L limit h → LegalFrom L (standing L limit h) k →
        Legal L limit (h ++ k) }
{}
