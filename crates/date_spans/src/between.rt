//! Events and register entries between two days.

ghost use Rattle.std.specs.Prelude.{◌↔◌, IfOk, IsTrue, OnOk};
ghost use Rattle.date_spans.specs.Between.{AreAll, IsBetween};
ghost use Rattle.date_spans.specs.Gathered.{Takes};

use crate::meeting::meets;
use crate::record_spans::span_of;
use archive_state::State;
use std::alloc::{AllocError, Global};

/// The numbers of the events and register entries whose date has a span that meets the days from the first to the
/// last, ascending. Days are counted from 1970-01-01, day 0; any two are taken.
pub fn between_days(
    alloc: Global,
    state: &State,
    first: i32,
    last: i32,
) -> Result<Vec<u32>, AllocError>
    ensures { IfOk result (λ found. AreAll (IsBetween state.now.records first last) found.items) }
{
    let numbers = state.record_numbers(alloc)?;
    let mut found = Vec::new(alloc);
    'numbers: for number in &numbers {
        push_if_between(alloc, state, *number, first, last, &mut found)?;
    }
    Ok(found)
}

/// Adds a number, where its record has a date whose span meets the days.
fn push_if_between(
    alloc: Global,
    state: &State,
    number: u32,
    first: i32,
    last: i32,
    found: &mut Vec<u32>,
) -> Result<(), AllocError>
    ensures { OnOk result (Takes (IsBetween state.now.records first last) number found.old.items found.new.items) }
{
    if is_between(alloc, state, number, first, last)? {
        found.push(number)?;
    }
    Ok(())
}

/// Whether the record of a number has a date whose span meets the days.
fn is_between(
    alloc: Global,
    state: &State,
    number: u32,
    first: i32,
    last: i32,
) -> Result<bool, AllocError>
    ensures { IfOk result (λ b. IsTrue b ↔ IsBetween state.now.records first last number) }
{
    let Some(found) = state.record(number) else {
        return Ok(false);
    };
    match span_of(alloc, found)? {
        None => Ok(false),
        Some(span) => Ok(meets(span, first, last)),
    }
}
