//! The language is a check, and documents have what was read.
ghost use Rattle.std.specs.Prelude.{◌≡◌, ◌≢◌, ℕ, List, map, Ok};
ghost use Rattle.line_theory.specs.Lists.{Every};
ghost use Rattle.vern_sentence.specs.Trees as made;
ghost use Rattle.vern_step.specs.Parsed.{kind_of, parsed};
ghost use Rattle.script_theory.specs.Sentences.{Script, empty, misplaced, verdicts};
ghost use Rattle.script_theory.specs.Sentences as script;
ghost use Rattle.doc_theory.specs.Documents.{Document, Sentence, marks};
ghost use Rattle.doc_theory.specs.Checks.{Laws, Verdict, judged};
ghost use Rattle.doc_theory.specs.Histories.{Event, standing};
ghost use Rattle.check_theory.specs.Pieces.{pieces_of, place_in_proofs};
ghost use Rattle.check_theory.specs.Language.{checked, language, one, told};
ghost use Rattle.check_theory.specs.Read.{AreRead, DocumentRead, IsReadPiece, trees};

/// The check of real sentences is one that a document may have: inner sentences change nothing of what a closer leaves,
/// closers but Defined leave what follows from the statement, and Qed and Admitted leave the same. A sentence with a tree
/// of its kind is checked as script_theory says, and the verdicts of a document whose sentences were read are those of
/// their trees, checked one after the other.
pub fn the_language_is_a_check()
    ensures laws { Laws language }
    ensures one { (s : Script) (id : ℕ) (x : Sentence) (t : made.Sentence) → parsed x.text ≡ Ok t → x.kind ≡ place_in_proofs (kind_of t) →
        one s id x ≡ checked (script.one s id t) }
    ensures verdicts { (d : Document) → AreRead (marks d) → map {B = ℕ × Verdict} (λ j. (j.mark.id, j.verdict)) (judged language d) ≡
        map (λ v. (v.0, told v.1)) (verdicts (trees (marks d)) empty) }
{}

/// Each sentence that is cut from a text was read, and so was each live sentence at every standing of a history, where it
/// stands where its kind belongs. So no document has a verdict on a sentence out of place.
pub fn sentences_are_read()
    ensures cut { (text : List ℕ) → Every IsReadPiece (pieces_of text) }
    ensures standing { (limit : ℕ) (h : List Event) → DocumentRead (standing language limit h).document }
    ensures live { (d : Document) → DocumentRead d → AreRead (marks d) }
    ensures placed { (d : Document) → DocumentRead d → Every (λ v. v.1 ≢ misplaced) (verdicts (trees (marks d)) empty) }
{}
