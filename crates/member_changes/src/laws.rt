//! What holds of members and participants changed in an archive.

ghost use Rattle.member_changes.specs.Laws.{KeepsSound, LeavesAllElse};

/// A sound archive stays sound.
pub fn an_archive_stays_sound()
    ensures { KeepsSound }
{}

/// All but the family or the event is as it was, and no number is drawn.
pub fn all_else_stays()
    ensures { LeavesAllElse }
{}
