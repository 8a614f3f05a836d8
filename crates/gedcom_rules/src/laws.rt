//! Laws of judging, over the definitions that the contracts cite.

ghost use Rattle.std.specs.Prelude.{◌≡◌, ◌++◌, ◌∷◌, [], ℕ, List};
ghost use Rattle.gedcom_line.specs.Line.{IsPiece};
ghost use Rattle.gedcom_line.specs.Reading.{Parts};
ghost use Rattle.gedcom_line.specs.Refusals.{number_of as number_of_line};
ghost use Rattle.gedcom_line.specs.declared.fault.LineKind.{LineKind};
ghost use Rattle.gedcom_rules.specs.Faults.{Judged};
ghost use Rattle.gedcom_rules.specs.Judging.{after, judge, start};
ghost use Rattle.gedcom_rules.specs.Refusals.{number_of};
ghost use Rattle.gedcom_rules.specs.Rules.{of_line, progress_of};

/// What `judge_piece` computes is what the definitions say: after lines, which leave what was computed of
/// them, a piece is blank, or a line that breaks no rule, or faulty for that reason first.
pub fn judging_is_as_defined()
    ensures none { start ≡ progress_of [] }
    ensures piece { (before : List Parts) (p : List ℕ) → IsPiece p → Judged before p (judge (progress_of before) p) }
    ensures line { (before : List Parts) (l : Parts) → progress_of (before ++ l ∷ []) ≡ after (progress_of before) l }
{}

/// A fault of a line by itself has the same number in the table of files.
pub fn a_fault_of_a_line_keeps_its_number()
    ensures { (k : LineKind) → number_of (of_line k) ≡ number_of_line k }
{}
