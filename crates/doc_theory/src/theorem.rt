//! The theorem: what is written, results aside, what results write, and what a Join lists.
ghost use Rattle.std.specs.Prelude.{◌≡◌, ◌⊎◌, ◌++◌, ◌∷◌, [], true, false, Bool, ℕ, List, map, length, Option, Some};
ghost use Rattle.line_theory.specs.Lists.{Every, chosen};
ghost use Rattle.serapi_ans.specs.declared.line.Line.TheVariants.{Joined, Completed};
ghost use Rattle.doc_theory.specs.Lists.{Member};
ghost use Rattle.doc_theory.specs.Checks.{Check, Laws, Work, works, text_of, judged, Told, checked};
ghost use Rattle.serapi_ans.specs.declared.line.Line.{Line};
ghost use Rattle.serapi_cmd.specs.declared.command.Command.TheVariants as cmd;
ghost use Rattle.serapi_cmd.specs.declared.request.Request.TheVariants.{Do};
ghost use Rattle.doc_theory.specs.Answers.{whole, left, answers, faults, is_wrong};
ghost use Rattle.doc_theory.specs.Documents.{Document, live, marks};
ghost use Rattle.doc_theory.specs.Histories.{
  Event,
  command,
  claim,
  returned,
  join_answered,
  joining,
  Standing,
  Row,
  Legal,
  standing,
  step,
  written,
  strip,
  requests,
  fate,
  outcomes,
};
ghost use Rattle.doc_theory.specs.Told.{IsTold};
ghost use Rattle.doc_theory.specs.Tasks.{task_lines, IsLive};
ghost use Rattle.doc_theory.specs.Notes.{noted_of, noted};

/// However claims, results and losses fall among the commands, what is written without the lines of results is what
/// the one-thread document answers to the commands.
pub fn one_thread<S>()
    ensures { (L : Check S) (limit : ℕ) (h : List Event) → Legal L limit h
        → strip L limit h ≡ answers L limit (requests h) (outcomes h) }
{}

/// At each standing of a history the work of each row is that of the live block now; a claimed task is such a work; and
/// a kept result, however late, writes what the check of its claimed task gives. A dropped one writes nothing and
/// leaves document and rows; and a result whose row went is dropped, whatever stands under its block's closer by then.
pub fn late_results<S>()
    ensures live { (L : Check S) → Laws L → (limit : ℕ) (h : List Event) → Legal L limit h
        → Every (IsLive L (standing L limit h).document) (standing L limit h).table.rows }
    ensures claimed { (L : Check S) → Laws L → (limit : ℕ) (h : List Event) (s n : ℕ) → Legal L limit (h ++ (claim s n ∷ []))
        → (w : Work S) × (Member (record { seat = s; number = n; work = w }) (step L (standing L limit h) (claim s n)).table.out
        × Member w (works L (standing L limit h).document)) }
    ensures kept { (L : Check S) → Laws L → (limit : ℕ) (h : List Event) (s n : ℕ) → Legal L limit (h ++ (returned s n true ∷ []))
        → (w : Work S) × (Member (record { seat = s; number = n; work = w }) (standing L limit h).table.out
        × (written L (standing L limit h) (returned s n true) ≡ task_lines L w)) }
    ensures dropped { (L : Check S) (p : Standing S) (s n : ℕ) → written L p (returned s n false) ≡ [] }
    ensures dropped_document { (L : Check S) (p : Standing S) (s n : ℕ) → (step L p (returned s n false)).document ≡ p.document }
    ensures dropped_rows { (L : Check S) (p : Standing S) (s n : ℕ) → (step L p (returned s n false)).table.rows ≡ p.table.rows }
    ensures gone { (L : Check S) (limit : ℕ) (h : List Event) (s n : ℕ) (kept : Bool) → Legal L limit (h ++ (returned s n kept ∷ []))
        → ((r : Row S) → Member r (standing L limit h).table.rows → r.number ≡ n → ⊥) → kept ≡ false }
{}

/// Where a Join is answered every live entry is told, and its line lists exactly the ids whose verdict isn't good, each
/// with its text, in the order of the document. The verdict of each live entry is then one that is told outside of
/// delegated blocks, or one of a row's result. A Join that is neither answered nor stopped by memory is the last request.
pub fn joined_at_the_end<S>()
    ensures told { (L : Check S) → Laws L → (limit : ℕ) (h : List Event) → Legal L limit (h ++ (join_answered ∷ []))
        → Every IsTold (live (standing L limit h).document) }
    ensures lines { (L : Check S) (limit : ℕ) (h : List Event) (tag : List ℕ) → (standing L limit h).mode ≡ joining tag
        → written L (standing L limit h) join_answered ≡ Joined tag (length (marks (standing L limit h).document))
        (faults (judged L (standing L limit h).document)) ∷ (Completed tag ∷ []) }
    ensures listed { (L : Check S) (d : Document) → map (λ f. f.0) (faults (judged L d)) ≡ map (λ j. j.mark.id)
        (chosen (λ j. is_wrong j.verdict) (judged L d)) }
    ensures listed_texts { (L : Check S) (d : Document) → map {A = ℕ × List ℕ} {B = ℕ × Option (List ℕ)} (λ f. (f.0, Some f.1))
        (faults (judged L d)) ≡ map (λ j. (j.mark.id, text_of j.verdict)) (chosen (λ j. is_wrong j.verdict) (judged L d)) }
    ensures texts { (L : Check S) → Laws L → (limit : ℕ) (h : List Event) → Legal L limit (h ++ (join_answered ∷ []))
        → (t : Told) → Member t (map noted_of (judged L (standing L limit h).document))
        → Member t (noted L (standing L limit h).document)
        ⊎ ((r : Row S) × (Member r (standing L limit h).table.rows × Member t (checked L r.work))) }
    ensures left { (L : Check S) (limit : ℕ) (h k : List Event) (n : ℕ) (tag : List ℕ) (ls : List Line)
        → Legal L limit (h ++ (command n (Do (record { tag = tag; command = cmd.Join })) whole ls ∷ k)) → fate k ≡ left
        → requests k ≡ [] }
{}
