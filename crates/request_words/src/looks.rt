//! A request over a view of which each look fails in turn: it has to be refused as that look was.

use crate::failing::{Failing, Failure};
use crate::reading::command_of;
use crate::rows::{refused, said, word};
use archive_core::{Request, decide};
use archive_state::{Changes, Numbered, State, View};
use commands::Command;
use receipts::Token;
use record_text::{Refusal, RefusalKind};
use std::alloc::{AllocError, Global};

/// The most looks that are made to fail: more than any command makes.
const MOST: u32 = 1_000;

/// How many looks a request makes, where each that fails is answered as such with one failure counted, and where
/// without a failing look it is decided as over the state; else `differs`.
pub(crate) fn looks_row(
    alloc: Global,
    state: &State,
    failure: Failure,
    fields: &[&str],
) -> Result<Vec<u8>, AllocError> {
    let [token, rest @ ..] = fields else {
        return refused(alloc, "", RefusalKind::FieldCount);
    };
    match Token::try_new(String::from_str(alloc, token)?) {
        Some(token) => row_under(alloc, state, failure, token, rest),
        None => refused(alloc, "", RefusalKind::BadToken),
    }
}

fn row_under(
    alloc: Global,
    state: &State,
    failure: Failure,
    token: Token,
    fields: &[&str],
) -> Result<Vec<u8>, AllocError> {
    match command_of(alloc, fields) {
        Ok(command) => row_of(alloc, state, failure, token, command),
        Err(kind) => refused(alloc, token.as_str(), kind),
    }
}

fn row_of(
    alloc: Global,
    state: &State,
    failure: Failure,
    token: Token,
    command: Command,
) -> Result<Vec<u8>, AllocError> {
    let request = Request {
        token,
        command,
        digest: None,
    };
    let found = looks(alloc, state, failure, &request);
    drop(request);
    match found {
        Some(looks) => said(alloc, "looks", looks.to_string(alloc)?.as_bytes()),
        None => word(alloc, "differs"),
    }
}

/// How many looks a request makes. `None`: one that fails, or that none fails, is answered otherwise.
fn looks(alloc: Global, state: &State, failure: Failure, request: &Request) -> Option<u32> {
    let good = first_decided(alloc, state, failure, request)?;
    if is_decided_alike(alloc, state, failure, request, good) {
        Some(good)
    } else {
        None
    }
}

/// The least number of good looks with which a request is not refused as the look after them.
fn first_decided(alloc: Global, state: &State, failure: Failure, request: &Request) -> Option<u32> {
    for good in 0..MOST {
        if !is_refused_after(alloc, state, failure, request, good) {
            return Some(good);
        }
    }
    None
}

/// Whether a request is refused as the look that comes after so many good ones, and no other look is made.
fn is_refused_after(
    alloc: Global,
    state: &State,
    failure: Failure,
    request: &Request,
    good: u32,
) -> bool {
    let mut view = Failing::new(state, good, failure);
    let refused = decide(alloc, &mut view, request).err();
    refused == Some(Refusal::from(failure.kind())) && view.failures() == 1
}

/// Whether so many looks are enough to decide a request as only over the state.
fn is_decided_alike(
    alloc: Global,
    state: &State,
    failure: Failure,
    request: &Request,
    looks: u32,
) -> bool {
    let mut view = Failing::new(state, looks, failure);
    let mut alone: &State = state;
    let found = decide(alloc, &mut view, request);
    let wanted = decide(alloc, &mut alone, request);
    view.failures() == 0 && are_alike(&found, &wanted)
}

fn are_alike(found: &Result<Changes, Refusal>, wanted: &Result<Changes, Refusal>) -> bool {
    match (found, wanted) {
        (Ok(a), Ok(b)) => is_alike(a, b),
        (Err(a), Err(b)) => a == b,
        _ => false,
    }
}

/// Whether both change the same numbers, with the same answer, and both keep it or neither.
fn is_alike(a: &Changes, b: &Changes) -> bool {
    a.answer == b.answer
        && a.next == b.next
        && a.kept.is_some() == b.kept.is_some()
        && has_same_numbers(&a.puts, &b.puts)
}

fn has_same_numbers(a: &[Numbered], b: &[Numbered]) -> bool {
    if a.len() != b.len() {
        return false;
    }
    for i in 0..a.len() {
        if a[i].number != b[i].number {
            return false;
        }
    }
    true
}
