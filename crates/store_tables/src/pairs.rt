//! The integer that stands for a pair of a number that is named and the record that names it.

ghost use Rattle.std.specs.Prelude.{◌≡◌, ℕ};
ghost use Rattle.store_tables.specs.Reading.{pair_at};
ghost use Rattle.store_tables.specs.Rows.{integer_at, pair_place};

use crate::stored::LinkRow;

/// The integer of a pair: pairs are in the order of the number that is named, and then in that of the record.
pub fn integer_of(target: u32, number: u32) -> i64
    ensures { result ≡ integer_at (pair_place target number) }
{
    (i64::from(target) - 2147483648) * 4294967296 + i64::from(number)
}

/// The pair of an integer.
pub(crate) fn pair_of(integer: i64) -> LinkRow
    ensures place { integer ≡ integer_at (pair_place result.target result.no) }
    ensures pair { (place : ℕ) → integer ≡ integer_at place → result ≡ pair_at place }
{
    let place = integer.abs_diff(i64::MIN);
    LinkRow {
        target: (place / 4294967296) as u32,
        number: (place % 4294967296) as u32,
    }
}
