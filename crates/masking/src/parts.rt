//! Parts of records as they are shown: in memory of their own, without the lines that they carry.

ghost use Rattle.std.specs.Prelude.{◌≡◌, IfOk, map, option_map};

use record_fields::Date;
use record_text::Text;
use std::alloc::{AllocError, Global};

/// A part of a record, of which all but its carried lines is shown.
pub(crate) trait Part: Drop {
    ghost shown: { Self → Self };

    /// What is shown of it.
    fn shown(&self, alloc: Global) -> Result<Self, AllocError>
        ensures { IfOk result (λ p. p ≡ shown self.now) };
}

/// What is shown of each part, in their order.
pub(crate) fn shown_parts<P: Part>(alloc: Global, parts: &[P]) -> Result<Vec<P>, AllocError>
    ensures { IfOk result (λ made. made.items ≡ map P.shown parts.now) }
{
    let mut made = Vec::new(alloc);
    'parts: for part in parts {
        made.push(part.shown(alloc)?)?;
    }
    Ok(made)
}

/// What is shown of a part that may be missing.
pub(crate) fn shown_part<P: Part>(alloc: Global, part: &Option<P>) -> Result<Option<P>, AllocError>
    ensures { IfOk result (λ made. made ≡ option_map P.shown part.now) }
{
    match part {
        None => Ok(None),
        Some(part) => Ok(Some(part.shown(alloc)?)),
    }
}

/// The same text in memory of its own, where there is one.
pub(crate) fn copied_text(alloc: Global, text: &Option<Text>) -> Result<Option<Text>, AllocError>
    ensures { IfOk result (λ t. t ≡ text.now) }
{
    match text {
        None => Ok(None),
        Some(text) => Ok(Some(text.copy(alloc)?)),
    }
}

/// The same date in memory of its own, where there is one.
pub(crate) fn copied_date(alloc: Global, date: &Option<Date>) -> Result<Option<Date>, AllocError>
    ensures { IfOk result (λ d. d ≡ date.now) }
{
    match date {
        None => Ok(None),
        Some(date) => Ok(Some(date.copy(alloc)?)),
    }
}
