//! What holds of corrections in an archive.

ghost use Rattle.field_changes.specs.Laws.{KeepsSound, KeepsSoundTags, LeavesAllElse, LeavesAllElseOfTags};

/// A record other than a place, corrected and put in place of the one before, leaves a sound archive sound.
pub fn an_archive_stays_sound()
    ensures { KeepsSound }
{}

/// So does an event with another tag.
pub fn an_archive_with_another_tag_stays_sound()
    ensures { KeepsSoundTags }
{}

/// All but the record is as it was, and no number is drawn.
pub fn all_else_stays()
    ensures { LeavesAllElse }
{}

/// The same of another tag.
pub fn all_but_the_event_stays()
    ensures { LeavesAllElseOfTags }
{}
