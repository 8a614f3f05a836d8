//! The tag of an event, put right.

ghost use Rattle.archive_state.specs.Looks.{Agrees, CountsFailures, is_stop};
ghost use Rattle.archive_state.specs.Views.{On};
ghost use Rattle.field_changes.specs.Steps as steps;

use crate::changing::record_there;
use archive_state::View;
use command_checks::{tag_of, text_in};
use commands::Field;
use record_kinds::{Event, Record};
use record_text::RefusalKind;
use std::alloc::Global;

/// The event of a number with another tag, which its owner may have. Refused: words that are no text (58), a number
/// that names nothing (50), a record that is no event (64), a tag that is not of the owner's kind (62).
pub fn correct_tag<V: View>(
    alloc: Global,
    view: &mut V,
    number: u32,
    word: &Field,
) -> Result<Record, RefusalKind>
    ensures decides { On V.View view.old view.new
        (λ c. Agrees is_stop result (steps.retagged c number word.now)) }
    ensures counts { CountsFailures (V.failed view.old) (V.failed view.new) result }
{
    let word = text_in(alloc, word)?;
    match record_there(alloc, view, number)? {
        Record::Event(event) => Ok(Record::Event(with_tag(alloc, view, event, word.as_str())?)),
        other => {
            drop(other);
            Err(RefusalKind::NoSuchField)
        }
    }
}

/// The event with that tag, where its owner may have it (else 62).
fn with_tag<V: View>(
    alloc: Global,
    view: &mut V,
    event: Event,
    word: &str,
) -> Result<Event, RefusalKind>
    ensures decides { On V.View view.old view.new
        (λ c. Agrees is_stop result (steps.with_tag c event word.now)) }
    ensures counts { CountsFailures (V.failed view.old) (V.failed view.new) result }
{
    match tag_of(alloc, view, event.owner, None, word) {
        Ok(tag) => {
            let mut event = event;
            event.tag = tag;
            Ok(event)
        }
        Err(e) => {
            drop(event);
            Err(e)
        }
    }
}
