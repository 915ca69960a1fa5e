//! The laws of lines.
ghost use Rattle.std.specs.Prelude.{◌≡◌, ℕ, List, [], ◌++◌};
ghost use Rattle.serapi_ans.specs.Lines.{line_text, lines_text};
ghost use Rattle.serapi_ans.specs.Fitting.{IsLine, AreLines};
ghost use Rattle.serapi_ans.specs.Joined.{joined_head, fault_texts, joined_end};
ghost use Rattle.serapi_ans.specs.declared.line.Line.{Line};
ghost use Rattle.serapi_ans.specs.declared.line.Line.TheVariants as lines;

/// What `write_joined_head` puts, then `write_joined_fault` for each fault in order, then `write_joined_end`, is the
/// text of one Joined line.
pub fn joined_parts_are_one_line()
    ensures { (tag : List ℕ) (sentences : ℕ) (faults : List (ℕ × List ℕ))
        → joined_head tag sentences ++ (fault_texts faults ++ joined_end) ≡ line_text (lines.Joined tag sentences faults) }
{}

/// No line is the front of another: where two texts of lines begin what is the same, the lines are the same, and the
/// same is behind them. So a list of lines is found again from its text.
pub fn no_line_begins_another()
    ensures one { (l m : Line) (behind more : List ℕ) → IsLine l → IsLine m → line_text l ++ behind ≡ line_text m ++ more → (l ≡ m)
        × (behind ≡ more) }
    ensures all { (ls ms : List Line) → AreLines ls → AreLines ms → lines_text ls ≡ lines_text ms → ls ≡ ms }
{}
