//! Runs that are computed.
ghost use Rattle.std.specs.Prelude.{◌≡◌, ◌++◌, ◌∷◌, [], List};
ghost use Rattle.doc_theory.specs.Checks.{Laws};
ghost use Rattle.doc_theory.specs.Histories.{Legal, render, strip};
ghost use Rattle.doc_theory.specs.Toy.{toy};
ghost use Rattle.doc_theory.specs.Rows as rows;
ghost use Rattle.serapi_ans.specs.declared.line.Line.TheVariants.{Canceled, EditAt, OutOfMemory, Completed, Ack};
ghost use Rattle.serapi_ans.specs.declared.line.EditLine.TheVariants.{NewTip};
ghost use Rattle.serapi_ans.specs.declared.line.Exn.TheVariants as exn;

/// What one thread answers to some requests, over a small check.
pub fn answers_are_computed()
    ensures laws { Laws toy }
    ensures plain { rows.said rows.plain_requests ≡ rows.plain_lines }
    ensures zone { rows.said rows.zone_requests ≡ rows.zone_lines }
    ensures inside { rows.said (rows.zone_requests ++ rows.inside_requests) ≡ rows.zone_lines ++ rows.inside_lines }
    ensures closing { rows.said (rows.zone_requests ++ rows.inside_requests ++ rows.closing_requests) ≡ rows.zone_lines
        ++ rows.inside_lines ++ rows.closing_lines }
    ensures tail { rows.said (rows.zone_requests ++ rows.tail_requests) ≡ rows.zone_lines ++ rows.tail_lines }
    ensures twice { rows.said rows.twice_requests ≡ rows.twice_lines }
    ensures again { rows.said (rows.zone_requests ++ rows.inside_requests ++ rows.again_requests) ≡ rows.zone_lines
        ++ rows.inside_lines ++ rows.again_lines }
    ensures closed { rows.said (rows.zone_requests ++ rows.inside_requests ++ rows.closed_requests) ≡ rows.zone_lines
        ++ rows.inside_lines ++ rows.closed_lines }
    ensures cursor { rows.said (rows.zone_requests ++ rows.cursor_requests) ≡ rows.zone_lines ++ rows.cursor_lines }
    ensures alone { rows.said rows.alone_requests ≡ rows.alone_lines }
    ensures refused { rows.said rows.refused_requests ≡ rows.refused_lines }
    ensures limited { rows.limited_lines ≡ rows.between (rows.plus 2 0 19 ∷ rows.plus 3 20 39 ∷ rows.refusal (exn.TooMany 40) ∷ []) }
    ensures chosen { rows.chosen_lines ≡ rows.between (rows.plus 2 0 19 ∷ []) }
    ensures none { rows.said rows.none_requests ≡ rows.none_lines }
    ensures cut { rows.cut_lines ≡ rows.first_added
        ++ (Ack [] ∷ EditAt [] (NewTip 10) ∷ Canceled [] (11 ∷ []) ∷ OutOfMemory [] ∷ Completed [] ∷ []) }
{}

/// What some histories write, over a small check.
pub fn histories_are_computed()
    ensures plain_is_legal { Legal toy 1048576 rows.plain_run }
    ensures plain { render toy 1048576 rows.plain_run ≡ rows.plain_written }
    ensures faulty_is_legal { Legal toy 1048576 rows.faulty_run }
    ensures faulty { render toy 1048576 rows.faulty_run ≡ rows.faulty_written }
    ensures kept_is_legal { Legal toy 1048576 rows.kept_run }
    ensures kept { render toy 1048576 rows.kept_run ≡ rows.kept_written }
    ensures defined_is_legal { Legal toy 1048576 rows.defined_run }
    ensures defined { render toy 1048576 rows.defined_run ≡ rows.defined_written }
    ensures before_result_is_legal { Legal toy 1048576 rows.before_result }
    ensures behind_result_is_legal { Legal toy 1048576 rows.behind_result }
    ensures late_is_legal { Legal toy 1048576 rows.late }
    ensures late_is_dropped { render toy 1048576 rows.late ≡ rows.late_before ++ rows.late_results ++ rows.late_joined }
    ensures late_is_stripped { strip toy 1048576 rows.late ≡ rows.late_before ++ rows.late_joined }
    ensures lost_is_legal { Legal toy 1048576 rows.lost_run }
    ensures edited_is_legal { Legal toy 1048576 rows.edited_run }
    ensures opened_is_legal { Legal toy 1048576 rows.opened_run }
    ensures edited { render toy 1048576 rows.edited_run ≡ strip toy 1048576 rows.edited_run ++ rows.edited_results }
{}
