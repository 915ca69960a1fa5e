//! The document's line as the graph has it.
ghost use Rattle.std.specs.Prelude.{◌≡◌, ℕ, List};
ghost use Rattle.line_theory.specs.Lines as lines;
ghost use Rattle.line_theory.specs.Edits as edits;
ghost use Rattle.doc_theory.specs.Documents.{Sentence, Document, tip, cursor};
ghost use Rattle.doc_theory.specs.Editing.{attempt, edit, remove, outcome, lost};
ghost use Rattle.doc_theory.specs.Answers.{cancel_all};
ghost use Rattle.doc_theory.specs.Invariants.{Sound, IfAdded};
ghost use Rattle.doc_theory.specs.Line.{line};
ghost use Rattle.doc_theory.specs.Shape.{shape, shape_edited, told_as, CancelsAs, put};

/// The shape of a document is a line of ids whose changes are those of the document: a sentence that is added is what
/// the line's word for its kind does, an edit is the line's edit, a removal is the line's removal, and a Cancel is the
/// line's Cancel.
pub fn documents_are_lines()
    ensures ids { (d : Document) → lines.ids (shape d) ≡ line d }
    ensures cursor { (d : Document) → lines.cursor (shape d) ≡ cursor d }
    ensures tip { (d : Document) → lines.tip (shape d) ≡ tip d }
    ensures outcome { (d : Document) → told_as (edits.outcome (shape d)) ≡ outcome d }
    ensures lost { (d e : Document) → edits.lost (shape d) (shape e) ≡ lost d e }
    ensures added { (d : Document) (offset : ℕ) (x : Sentence) → Sound d → IfAdded (λ e. shape e ≡ put x.kind d.next (shape d))
        (attempt d offset x) }
    ensures edited { (d : Document) (i : ℕ) → edits.edited i (shape d) ≡ shape_edited (edit d i) }
    ensures removed { (d : Document) (i : ℕ) → edits.removed i (shape d) ≡ shape_edited (remove d i) }
    ensures cancelled { (tag is : List ℕ) (d : Document) → CancelsAs tag (cancel_all tag is d) (edits.cancelled is (shape d)) }
{}
