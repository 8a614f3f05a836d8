//! The places within a place.

ghost use Rattle.std.specs.Prelude.{◌≡◌};
ghost use Rattle.place_names.specs.Naming as naming;

use record_kinds::{Place, Record};

/// The place of number `k`, if it is directly within the place of that number.
pub(crate) fn place_within(number: u32, k: u32, found: Option<Record>) -> Option<Place>
    ensures { result ≡ naming.place_within number k found }
{
    match found {
        Some(Record::Place(place)) => {
            if number < k && is_number(number, place.parent) {
                Some(place)
            } else {
                drop(place);
                None
            }
        }
        other => {
            drop(other);
            None
        }
    }
}

/// Whether the number is given.
pub(crate) fn is_number(number: u32, given: Option<u32>) -> bool
    ensures { result ≡ naming.is_number number given }
{
    match given {
        Some(k) => k == number,
        None => false,
    }
}
