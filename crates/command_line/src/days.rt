//! The day that a word names.

ghost use Rattle.std.specs.Prelude.{◌≡◌};
ghost use Rattle.command_line.specs.Days.{day_read};

use calendar_days::laws::the_formulas_count;
use jiff::civil::Date;

/// The number of the day of a word, which `jiff` reads; day 0 is 1970-01-01. `None`: it reads no date from it.
pub(crate) fn day_of(word: &str) -> Option<i32>
    ensures { result ≡ day_read word.now }
{
    the_formulas_count();
    match word.parse::<Date>() {
        Ok(date) => Some(date.to_plain().to_unix_epoch_day()),
        Err(_) => None,
    }
}
