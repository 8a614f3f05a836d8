//! Corrections of events.

ghost use Rattle.std.specs.Prelude.{◌≡◌};
ghost use Rattle.corrections.specs.Corrections as corrections;

use crate::correction::Correction;
use crate::field::TextField;
use record_kinds::{Event, EventPlace};
use record_text::RefusalKind;
use std::alloc::Global;

/// An event with another value of a field.
pub(crate) fn event_with(
    alloc: Global,
    event: Event,
    correction: Correction,
) -> Result<Event, RefusalKind>
    ensures { result ≡ corrections.event_with correction event }
{
    let mut event = event;
    match correction {
        Correction::Tag(tag) => event.tag = tag,
        Correction::Date(date) => event.date = date,
        Correction::Place(number) => {
            let old = event.place.take();
            event.place = place_with(alloc, number, old);
        }
        Correction::Text(TextField::Value, text) => event.value = text,
        _ => return Err(RefusalKind::NoSuchField),
    }
    Ok(event)
}

/// The place of a number, with the carried lines of the one before; none if there is no number.
fn place_with(alloc: Global, number: Option<u32>, old: Option<EventPlace>) -> Option<EventPlace>
    ensures { result ≡ corrections.place_with number old }
{
    match (number, old) {
        (None, _) => None,
        (Some(place), None) => Some(EventPlace {
            place,
            carried: Vec::new(alloc),
        }),
        (Some(place), Some(old)) => Some(at_place(old, place)),
    }
}

/// Another place, with the same carried lines.
fn at_place(old: EventPlace, place: u32) -> EventPlace
    ensures { result ≡ record old { place = place } }
{
    let mut at = old;
    at.place = place;
    at
}
