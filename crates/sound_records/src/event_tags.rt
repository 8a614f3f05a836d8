//! The tags of events.

ghost use Rattle.std.specs.Prelude.{◌≡◌};
ghost use Rattle.record_shapes.specs.Tags as tags;

use record_kinds::Record;
use record_shapes::{is_family_tag, is_person_tag};

/// Whether the record may have events of that tag.
pub(crate) fn is_event_tag(tag: &str, owner: &Record) -> bool
    ensures { result ≡ tags.is_event_tag tag.now owner.now }
{
    match owner {
        Record::Person(_) => is_person_tag(tag),
        Record::Family(_) => is_family_tag(tag),
        _ => false,
    }
}
