//! Two dates of which the first does not begin after the second ends.

ghost use Rattle.std.specs.Prelude.{◌≡◌, IfSome, IsSome};
ghost use Rattle.calendar_days.specs.Told.{told};
ghost use Rattle.gedcom_date.specs.Order.{IsOrdered};

use calendar_days::{CalendarDate, first_day, last_day};

/// A first and a last date: the first one's first day is at most the last one's last day.
#[derive(Clone, Copy, Debug, PartialEq, Eq)]
pub struct Period {
    /// The date that it begins in.
    pub first: CalendarDate,
    /// The date that it ends in.
    pub last: CalendarDate,
    ghost ordered: { IsOrdered (told first) (told last) },
}

impl Period {
    /// The period of two dates; none where the first one begins after the last one ends.
    pub fn new(first: CalendarDate, last: CalendarDate) -> Option<Period>
        ensures found { IfSome result (λ p. (p.first ≡ first) × (p.last ≡ last)) }
        ensures every { IsOrdered (told first) (told last) → IsSome result }
    {
        if first_day(&first) <= last_day(&last) {
            Some(Period { first, last })
        } else {
            None
        }
    }
}
