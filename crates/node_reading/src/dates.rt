//! Dates of events.

ghost use Rattle.std.specs.Prelude.{◌≡◌, IfOk, Some};
ghost use Rattle.record_shapes.specs.Reading as reading;

use record_fields::Date;
use record_text::Text;
use std::alloc::{AllocError, Global};

/// The date that a text says, where there is one.
pub(crate) fn date_of(alloc: Global, text: Option<Text>) -> Result<Option<Date>, AllocError>
    ensures { IfOk result (λ d. d ≡ reading.read_by reading.dated text) }
{
    match text {
        Some(text) => said_date(alloc, &text),
        None => Ok(None),
    }
}

/// The date that a text says. There is always one: the spelling of what a text says is a text.
fn said_date(alloc: Global, text: &Text) -> Result<Option<Date>, AllocError>
    ensures { IfOk result (λ found. found ≡ reading.dated text.now) }
{
    Date::try_new(alloc, text.as_str())
}
