//! Participants of events.

ghost use Rattle.std.specs.Prelude.{◌≡◌};
ghost use Rattle.memberships.specs.Members as members;

use record_kinds::Event;
use record_text::RefusalKind;

/// The event without the participant of a place in the list, from 1, and without what the participant's line carries
/// (64: the list has no such place).
pub fn without_participant(event: Event, place: u32) -> Result<Event, RefusalKind>
    ensures { result ≡ members.without_participant place event }
{
    if !has_participant(&event, place) {
        return Err(RefusalKind::NoSuchField);
    }
    let mut event = event;
    drop(event.participants.remove((place - 1) as usize));
    Ok(event)
}

/// Whether the event has a participant of that place in the list.
fn has_participant(event: &Event, place: u32) -> bool
    ensures { result ≡ members.has_participant place event.now }
{
    1 <= place && place as usize <= event.participants.len()
}
