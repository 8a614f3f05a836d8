//! The tags of events.

ghost use Rattle.std.specs.Prelude.{◌≡◌};
ghost use Rattle.record_shapes.specs.Tags.{person_tags, family_tags};
ghost use Rattle.record_shapes.specs.Forms as forms;

use record_shapes::{is_family_tag, is_person_tag};
use stored_lines::Carried;

/// Whether persons have events of the line's tag.
pub(crate) fn has_person_tag(line: &Carried) -> bool
    ensures { result ≡ forms.is_among person_tags line.now }
{
    is_person_tag(line.tag.as_str())
}

/// Whether families have events of the line's tag.
pub(crate) fn has_family_tag(line: &Carried) -> bool
    ensures { result ≡ forms.is_among family_tags line.now }
{
    is_family_tag(line.tag.as_str())
}
