//! Months that no text spells.

use calendar_days::{Calendar, CalendarDate, Extent, Year};

#[test]
fn no_year_has_a_month_behind_its_last(rt: HostRuntime) {
    let month = Extent::Month(13, Year::Single(14));
    assert!(rt; CalendarDate::new(Calendar::Gregorian, month).is_none());
    assert!(rt; CalendarDate::new(Calendar::Julian, month).is_none());
    assert!(rt; CalendarDate::new(Calendar::Republican, month).is_some());
    let month = Extent::Month(14, Year::Single(14));
    assert!(rt; CalendarDate::new(Calendar::Republican, month).is_none());
}
