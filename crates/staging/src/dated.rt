//! The spans of the records that an import puts, where they have a date.

ghost use Rattle.std.specs.Prelude.{IfOk, OnOk};
ghost use Rattle.staging.specs.Opened.{AreDated, DrawsOne, IsOneMore};

use archive_state::Numbered;
use date_spans::span_of;
use gedcom_date::Span;
use std::alloc::{AllocError, Global};

/// The span of a number.
#[derive(Clone, Copy)]
pub(crate) struct Dated {
    pub(crate) number: u32,
    pub(crate) span: Span,
}

/// The spans of these records, in their order: of those that have a date.
pub(crate) fn spans_of_puts(alloc: Global, puts: &[Numbered]) -> Result<Vec<Dated>, AllocError>
    ensures { IfOk result (λ found. AreDated puts.now found.items) }
{
    let mut found = Vec::new(alloc);
    'puts: for put in puts {
        push_dated(alloc, put, &mut found)?;
    }
    Ok(found)
}

/// Adds the span of a record, where it has a date.
fn push_dated(alloc: Global, put: &Numbered, found: &mut Vec<Dated>) -> Result<(), AllocError>
    ensures { OnOk result (DrawsOne put.now found.old.items found.new.items) }
{
    let span = span_of(alloc, &put.record)?;
    push_if(found, put.number, span)
}

/// Adds the span of a number, where there is one.
fn push_if(found: &mut Vec<Dated>, number: u32, span: Option<Span>) -> Result<(), AllocError>
    ensures { OnOk result (IsOneMore number span found.old.items found.new.items) }
{
    if let Some(span) = span {
        found.push(Dated { number, span })?;
    }
    Ok(())
}
