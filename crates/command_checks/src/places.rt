//! Places that an event may have.

ghost use Rattle.std.specs.Prelude.{◌≡◌, not, ◌||◌, ◌==◌, true};
ghost use Rattle.archive_state.specs.Looks.{Agrees, CountsFailures, Looked, is_stop};
ghost use Rattle.archive_state.specs.Views.{On};
ghost use Rattle.command_checks.specs.Checks as checks;

use crate::looks::wrong_kind;
use archive_state::View;
use record_kinds::{Place, Record};
use record_text::RefusalKind;
use std::alloc::Global;

/// That a place stands at the number, where there is one, and that its path has a part that is not empty.
pub fn check_place<V: View>(
    alloc: Global,
    view: &mut V,
    number: Option<u32>,
) -> Result<(), RefusalKind>
    ensures decides { On V.View view.old view.new
        (λ c. Agrees is_stop result (checks.passed (checks.each (checks.said_place_at c) number))) }
    ensures counts { CountsFailures (V.failed view.old) (V.failed view.new) result }
{
    let Some(number) = number else {
        return Ok(());
    };
    let place = place_in(view.record_at(alloc, number)?)?;
    if is_said(alloc, view, number, &place)? {
        Ok(())
    } else {
        Err(RefusalKind::BadText)
    }
}

fn place_in(found: Option<Record>) -> Result<Place, RefusalKind>
    ensures { result ≡ checks.place_in found }
{
    match found {
        None => Err(RefusalKind::NoSuch),
        Some(Record::Place(place)) => Ok(place),
        Some(other) => wrong_kind(other),
    }
}

/// Whether the place of a number, or one that it is within, has a name that says something.
#[tactic(auto, using(crate::proofs::Said::said_here, crate::proofs::Said::said_alone, crate::proofs::Said::said_not_below, crate::proofs::Said::said_above, crate::proofs::Said::said_of_none))]
fn is_said<V: View>(
    alloc: Global,
    view: &mut V,
    number: u32,
    place: &Place,
) -> Result<bool, RefusalKind>
    ensures decides { On V.View view.old view.new
        (λ c. Looked result (λ said. said ≡ checks.is_said number c.records number place.now)) }
    ensures counts { CountsFailures (V.failed view.old) (V.failed view.new) result }
{
    if says_something(place.name.as_str().as_bytes()) {
        return Ok(true);
    }
    let Some(parent) = place.parent else {
        return Ok(false);
    };
    if parent >= number {
        return Ok(false);
    }
    match place_in(view.record_at(alloc, parent)?) {
        Ok(above) => is_said(alloc, view, parent, &above),
        Err(_) => Ok(false),
    }
}

/// Whether a name has a character that is neither comma nor space.
fn says_something(name: &[u8]) -> bool
    ensures { result ≡ checks.says_something name.now }
{
    name.iter().any(|b| !(*b == b',' || *b == b' '))
}
