//! What holds of corrections.

ghost use Rattle.corrections.specs.Laws.{
  GivesBack,
  LaterCounts,
  LeavesCarriedLines,
  LeavesOtherFields,
  RefusesItself,
  RefusesOtherFields,
};

/// A correction of a field that the record has not is refused as such, and no other correction is.
pub fn other_fields_are_refused()
    ensures { RefusesOtherFields }
{}

/// No correction is refused with another number than 64, 58 and 62.
pub fn no_other_refusal_comes()
    ensures { RefusesItself }
{}

/// A correction changes no other field.
pub fn other_fields_stay()
    ensures { LeavesOtherFields }
{}

/// Carried lines stay where neither a name is removed nor a place or a repository taken away.
pub fn carried_lines_stay()
    ensures { LeavesCarriedLines }
{}

/// Of two corrections of one field the later one counts, where the first took nothing away.
pub fn the_later_correction_counts()
    ensures { LaterCounts }
{}

/// What a record had is put back by the correction that leaves the record as it is.
pub fn what_was_there_is_put_back()
    ensures { GivesBack }
{}
