//! All that rows show of a state, and a copy of it.

use crate::seeing::see;
use archive_state::State;
use receipts::Token;
use records::copy_record;
use std::alloc::{AllocError, Global};

/// The most numbers that are looked at.
const MOST: u64 = 20_000;

/// All that rows show of a state: its next number, what stands at the numbers up to it, and what is kept under tokens.
pub fn picture(alloc: Global, state: &State, tokens: &[Token]) -> Result<Vec<u8>, AllocError> {
    let mut rows = see(alloc, state, "! next", &[])?;
    for number in 1..last_number(state) {
        let shown = number.to_string(alloc)?;
        push_seen(alloc, &mut rows, state, "! show", shown.as_str())?;
        push_seen(alloc, &mut rows, state, "! slip", shown.as_str())?;
    }
    for token in tokens {
        push_seen(alloc, &mut rows, state, "! kept", token.as_str())?;
    }
    Ok(rows)
}

fn push_seen(
    alloc: Global,
    rows: &mut Vec<u8>,
    state: &State,
    asked: &str,
    field: &str,
) -> Result<(), AllocError> {
    let seen = see(alloc, state, asked, &[field])?;
    rows.extend_from_slice(seen.as_slice())?;
    Ok(())
}

fn last_number(state: &State) -> u32 {
    state.next().min(MOST) as u32 + 1
}

/// The same state in memory of its own, with the receipts of these tokens.
pub fn copy(alloc: Global, state: &State, tokens: &[Token]) -> Result<State, AllocError> {
    let mut made = State::new(alloc);
    made.set_next(state.next());
    for number in 1..last_number(state) {
        copy_number(alloc, state, &mut made, number)?;
        copy_slip(alloc, state, &mut made, number)?;
    }
    for token in tokens {
        copy_receipt(alloc, state, &mut made, token)?;
    }
    Ok(made)
}

fn copy_number(alloc: Global, from: &State, to: &mut State, number: u32) -> Result<(), AllocError> {
    if let Some(record) = from.record(number) {
        drop(to.put_record(number, copy_record(alloc, record)?)?);
    }
    Ok(())
}

fn copy_slip(alloc: Global, from: &State, to: &mut State, number: u32) -> Result<(), AllocError> {
    if let Some(slip) = from.slip(number) {
        drop(to.put_slip(number, slip.copy(alloc)?)?);
    }
    Ok(())
}

fn copy_receipt(
    alloc: Global,
    from: &State,
    to: &mut State,
    token: &Token,
) -> Result<(), AllocError> {
    if let Some(receipt) = from.receipt(token) {
        to.put_receipt(token.copy(alloc)?, *receipt)?;
    }
    Ok(())
}
