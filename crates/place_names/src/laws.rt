//! What holds of a correction of an archive.

ghost use Rattle.place_names.specs.Laws.{KeepsSound, LeavesAllElse, RefusesOnlyIfRead};

/// A sound archive stays sound.
pub fn an_archive_stays_sound()
    ensures { KeepsSound }
{}

/// All but the record is as it was, and no number is drawn.
pub fn all_else_stays()
    ensures { LeavesAllElse }
{}

/// What is still carried (66) refuses the name of a place only if, with it, a carried line would be read as a field, or
/// a record of no other kind as a register entry.
pub fn a_name_is_refused_only_if_something_is_read_otherwise()
    ensures { RefusesOnlyIfRead }
{}
