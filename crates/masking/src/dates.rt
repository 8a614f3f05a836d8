//! Dates that ended by a day.

ghost use Rattle.std.specs.Prelude.{◌↔◌, IfOk, IsTrue};
ghost use Rattle.masking.specs.Life.{HasEnded, HasEndedIfThere, IsLastDay};

use gedcom_date::span;
use record_fields::Date;
use std::alloc::{AllocError, Global};

/// Whether there is a date, and the last day that it may mean is at most `day`.
pub(crate) fn has_ended_if_there(
    alloc: Global,
    date: &Option<Date>,
    day: i64,
) -> Result<bool, AllocError>
    ensures { IfOk result (λ ended. IsTrue ended ↔ HasEndedIfThere date.now day) }
{
    match date {
        None => Ok(false),
        Some(date) => has_ended(alloc, date, day),
    }
}

/// Whether a date has a last day, and that is at most `day`.
fn has_ended(alloc: Global, date: &Date, day: i64) -> Result<bool, AllocError>
    ensures { IfOk result (λ ended. IsTrue ended ↔ HasEnded date.now day) }
{
    match last_day(alloc, date)? {
        None => Ok(false),
        Some(last) => Ok(i64::from(last) <= day),
    }
}

/// The last day that a date may mean. `None`: it has none.
fn last_day(alloc: Global, date: &Date) -> Result<Option<i32>, AllocError>
    ensures { IfOk result (λ last. IsLastDay date.now last) }
{
    let value = date.value(alloc)?;
    Ok(span(&value).hi)
}
