//! Words of fields.

ghost use Rattle.std.specs.Prelude.{◌≡◌};
ghost use Rattle.record_fields.specs.Words as words;
ghost use Rattle.record_shapes.specs.Forms as forms;

use crate::forms::text_of;
use record_fields::{Quality, Sex};
use stored_lines::Carried;

/// The quality whose word the text of a line is.
pub fn quality_of(line: &Carried) -> Option<Quality>
    ensures { result ≡ words.quality_of (forms.text_of line.now) }
{
    Quality::from_word(text_of(line))
}

/// The sex whose word the text of a line is.
pub fn sex_of(line: &Carried) -> Option<Sex>
    ensures { result ≡ words.sex_of (forms.text_of line.now) }
{
    Sex::from_word(text_of(line))
}
