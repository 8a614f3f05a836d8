//! What holds between the calls.

ghost use Rattle.std.specs.Prelude.{◌≡◌, ℕ, map};
ghost use Rattle.stored_lines.specs.Tree.{Tree, flat, relabel};
ghost use Rattle.stored_lines.specs.Line.{Label, Lines, label_of, line_of};

/// Lines are those of one branch at the most.
#[tactic(auto, using(crate::proofs::Back::flat_one))]
pub fn lines_are_of_one_branch()
    ensures { (t u : Tree Label) → flat 0 t ≡ flat 0 u → t ≡ u }
{}

/// What is read of carried lines as they are stored is these lines.
#[tactic(auto, using(crate::proofs::Back::lines_back))]
pub fn carried_lines_are_read_again()
    ensures { (ls : Lines) → map (relabel line_of) (map (relabel label_of) ls) ≡ ls }
{}
