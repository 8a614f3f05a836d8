//! What holds of the values of before.

ghost use Rattle.earlier_values.specs.Laws.{AreAllOverwritten, BelongToOneRecord};

/// A text is that of one record at the most, so what is read of the text of a record is that record.
pub fn a_text_is_of_one_record()
    ensures { BelongToOneRecord }
{}

/// Where a request only puts records or only removes some, the rows are, by number, exactly the records of before that
/// it overwrites or removes.
pub fn all_that_is_overwritten_is_there()
    ensures { AreAllOverwritten }
{}
