//! The steps of an import, and what is asked beside them, as outcomes.

use archive_core::Request;
use archive_state::State;
use commands::Command;
use receipts::Answer;
use record_text::{Refusal, RefusalKind};
use request_answers::Outcome;
use sqlite::Alter;
use std::alloc::{AllocError, Global};
use store::Archive;

/// What an archive answers to a step: of the import that is the first of these requests, or of the second. What has no
/// answer of its own has first 0 and count 0. A stage has count 1 where more is left; the state has its next number as
/// first, and as count how many records it has, which is the count of an audit too.
pub(crate) fn step<S: Alter>(
    alloc: Global,
    archive: &mut Archive<S>,
    name: &str,
    requests: &[Request],
) -> Outcome {
    match (name, requests) {
        ("begin", [import, ..]) => begin(alloc, archive, import),
        ("perform", [_, request, ..]) => archive.perform(alloc, request),
        ("stage", _) => staged(archive.stage(alloc)),
        ("publish", _) => Ok(archive.publish()?),
        ("abandon", _) => {
            archive.abandon()?;
            Ok(answer_of(0, 0))
        }
        ("society", _) => {
            archive.society(alloc)?;
            Ok(answer_of(0, 0))
        }
        ("state", _) => counted(alloc, archive.state(alloc)),
        ("audit", _) => Ok(answer_of(0, archive.audit(alloc)?)),
        _ => Err(Refusal::from(RefusalKind::BadRow)),
    }
}

fn begin<S: Alter>(alloc: Global, archive: &mut Archive<S>, request: &Request) -> Outcome {
    let Command::Import(forest) = &request.command else {
        return Err(Refusal::from(RefusalKind::BadRow));
    };
    match archive.begin_import(alloc, &request.token, forest)? {
        Some(answer) => Ok(answer),
        None => Ok(answer_of(0, 0)),
    }
}

fn staged(more: Result<bool, RefusalKind>) -> Outcome {
    Ok(answer_of(0, u32::from(more?)))
}

fn counted(alloc: Global, state: Result<State, RefusalKind>) -> Outcome {
    let state = state?;
    let count = record_count(alloc, &state)?;
    Ok(answer_of(state.next().min(u64::from(u32::MAX)) as u32, count))
}

fn record_count(alloc: Global, state: &State) -> Result<u32, AllocError> {
    let numbers = state.record_numbers(alloc)?;
    Ok(numbers.len().min(u32::MAX as usize) as u32)
}

fn answer_of(first: u32, count: u32) -> Answer {
    Answer { first, count }
}
