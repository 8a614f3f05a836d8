//! What holds of a change of one record.

ghost use Rattle.record_changes.specs.Laws.{LeavesAllElse};

/// A record put in place of another leaves all else as it was, draws no number, and uses none again.
pub fn all_else_stays()
    ensures { LeavesAllElse }
{}
