//! The spans of records.

ghost use Rattle.std.specs.Prelude.{IfOk, OnOk};
ghost use Rattle.std.specs.BTreeMap as tree;
ghost use Rattle.std.specs.FinMap.{get};
ghost use Rattle.std.specs.Ordering.{nat_cmp};
ghost use Rattle.date_spans.specs.Gathered.{Adds};
ghost use Rattle.date_spans.specs.Spans.{AreSpans, IsSpan, IsSpanOf, date_at, date_in};

use archive_state::State;
use gedcom_date::{Span, span};
use record_fields::Date;
use record_kinds::Record;
use std::alloc::{AllocError, Global};
use std::collections::BTreeMap;

/// The span of the date of an event or a register entry. `None`: it has no date, or the record is of another kind. A
/// date that is a phrase, or fits no form, has a span without ends.
pub fn span_of(alloc: Global, found: &Record) -> Result<Option<Span>, AllocError>
    ensures { IfOk result (λ span. IsSpanOf (date_in found.now) span) }
{
    match found {
        Record::Event(event) => span_if(alloc, &event.date),
        Record::Entry(entry) => span_if(alloc, &entry.date),
        _ => Ok(None),
    }
}

/// The span of a date, where there is one.
fn span_if(alloc: Global, date: &Option<Date>) -> Result<Option<Span>, AllocError>
    ensures { IfOk result (λ span. IsSpanOf date.now span) }
{
    match date {
        None => Ok(None),
        Some(date) => Ok(Some(span_of_date(alloc, date)?)),
    }
}

/// The span of a date.
fn span_of_date(alloc: Global, date: &Date) -> Result<Span, AllocError>
    ensures { IfOk result (λ span. IsSpan date.now span) }
{
    let value = date.value(alloc)?;
    Ok(span(&value))
}

/// The spans of the dates of all records, by the numbers of the records.
pub fn spans(alloc: Global, state: &State) -> Result<BTreeMap<u32, Span>, AllocError>
    ensures { IfOk result (λ spans. AreSpans state.now.records (tree.get nat_cmp spans)) }
{
    let numbers = state.record_numbers(alloc)?;
    let mut spans = BTreeMap::new(alloc);
    'numbers: for number in &numbers {
        add_span(alloc, state, *number, &mut spans)?;
    }
    Ok(spans)
}

/// Adds the span of the record of a number, where one stands there and has a date.
fn add_span(
    alloc: Global,
    state: &State,
    number: u32,
    spans: &mut BTreeMap<u32, Span>,
) -> Result<(), AllocError>
    ensures { OnOk result (Adds (tree.get nat_cmp spans.old) (tree.get nat_cmp spans.new) number
        (date_at (get state.now.records number))) }
{
    let Some(found) = state.record(number) else {
        return Ok(());
    };
    let Some(span) = span_of(alloc, found)? else {
        return Ok(());
    };
    spans.insert(number, span)?;
    Ok(())
}
