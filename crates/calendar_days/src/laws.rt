//! Laws of days, over the definitions that the contracts cite.

ghost use Rattle.calendar_days.specs.Laws.{
  IsConsecutive,
  IsApart,
  IsComplete,
  CivilCounts,
  JulianCounts,
  JulianCountsBothWays,
  RepublicanCounts,
  RepublicanDaysAreCivil,
};
ghost use Rattle.calendar_days.specs.declared.calendar.Calendar.{Calendar};

/// Consecutive dates have consecutive numbers, and each number is that of one day of each calendar,
/// from the year -10000 on.
pub fn each_day_has_one_number()
    ensures next { (c : Calendar) → IsConsecutive c }
    ensures one { (c : Calendar) → IsApart c }
    ensures every { (c : Calendar) → IsComplete c }
{}

/// The fast formulas are the count: `jiff`'s of the Gregorian calendar, and ours of the Julian one, for the
/// years of our era and, with a division that rounds down, for each year from -10000 on; of the French
/// Republican calendar the formula is the count in its years 1 to 14, and each of their days is a Gregorian one.
pub fn the_formulas_count()
    ensures gregorian { CivilCounts }
    ensures julian { JulianCounts }
    ensures both_ways { JulianCountsBothWays }
    ensures republican { RepublicanCounts }
    ensures civil { RepublicanDaysAreCivil }
{}
