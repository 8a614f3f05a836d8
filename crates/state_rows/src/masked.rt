//! Who is living, and what is shown.

use archive_state::State;
use masking::{Shown, living, shown};
use record_text::RefusalKind;
use row_words::{Answer, number, say_found, word};
use std::alloc::{AllocError, Global};

/// The day that a word is, and 0 where it is none.
pub(crate) fn day(words: &[String], at: usize) -> i32 {
    word(words, at).parse::<i32>().unwrap_or(0)
}

/// What is shown on the day of a row.
pub(crate) fn masked_on(
    alloc: Global,
    state: &State,
    words: &[String],
) -> Result<Shown, RefusalKind> {
    masked_of(alloc, state, day(words, 1))
}

fn masked_of(alloc: Global, state: &State, today: i32) -> Result<Shown, RefusalKind> {
    match shown(alloc, state, today) {
        Ok(masked) => Ok(masked),
        Err(refusal) => Err(refusal.kind),
    }
}

/// Says whether a person is living.
pub(crate) fn say_living(
    alloc: Global,
    state: &State,
    words: &[String],
    out: &mut Answer,
) -> Result<(), RefusalKind> {
    match living(alloc, state, number(words, 1), day(words, 2)) {
        Ok(true) => out.say_line("living"),
        Ok(false) => out.say_line("dead"),
        Err(refusal) => return Err(refusal.kind),
    }
    Ok(())
}

/// Says what is shown: the next number, and each record with its number.
pub(crate) fn say_shown(
    alloc: Global,
    state: &State,
    today: i32,
    out: &mut Answer,
) -> Result<(), RefusalKind> {
    let masked = masked_of(alloc, state, today)?;
    let said = say_records(alloc, &masked, out);
    drop(masked);
    Ok(said?)
}

/// Says how many records are shown, for a measurement that is not of the printing.
pub(crate) fn say_how_many(
    alloc: Global,
    state: &State,
    today: i32,
    out: &mut Answer,
) -> Result<(), RefusalKind> {
    let masked = masked_of(alloc, state, today)?;
    out.say("count ");
    out.say_count(how_many(masked.as_state()));
    drop(masked);
    Ok(())
}

fn how_many(state: &State) -> u64 {
    let mut count: u64 = 0;
    let last = u32::try_from(state.next()).unwrap_or(u32::MAX);
    for number in 0..last {
        if state.record(number).is_some() {
            count = count.saturating_add(1);
        }
    }
    count
}

fn say_records(alloc: Global, masked: &Shown, out: &mut Answer) -> Result<(), AllocError> {
    let state = masked.as_state();
    out.say("next ");
    out.say_count(state.next());
    let last = u32::try_from(state.next()).unwrap_or(u32::MAX);
    for number in 0..last {
        if let Some(record) = state.record(number) {
            out.say_number("record ", Some(number));
            say_found(alloc, Some(record), out)?;
        }
    }
    Ok(())
}
