//! Rows that end at the first that is refused: the outcome of that; and the status of what is said already.

ghost use Rattle.std.specs.Prelude.{◌≡◌, MatchBool};
ghost use Rattle.tasks.specs.Status.{Finishes};
ghost use Rattle.tasks.specs.Stopping.{as_stopped, has_bad_rows, is_said, names_row, reporting_of};

use crate::faults::FaultStream;
use crate::hints::status_of_file;
use crate::status::{REFUSED, placeless};
use crate::task::Task;
use record_text::{Refusal, RefusalKind, RefusalText, Unit};
use std::alloc::Global;

/// The outcome of rows that end at the first that is refused.
pub(crate) fn stopped(stopping: Result<Option<Refusal>, RefusalKind>) -> Result<(), RefusalText>
    ensures { result ≡ as_stopped stopping }
{
    match stopping {
        Ok(None) => Ok(()),
        Ok(Some(refusal)) => Err(refusal.text(Unit::Row)),
        Err(kind) => Err(placeless(kind)),
    }
}

/// What a task says by itself of what is refused.
#[derive(Clone, Copy, Debug)]
pub(crate) enum Reporting {
    /// Nothing.
    Nothing,
    /// What is wrong with the row at which it ends.
    Row,
    /// What is wrong with the rows of a table, or why it is none.
    Table,
}

/// What a task says by itself.
pub(crate) fn reporting_of(task: &Task) -> Reporting
    ensures { result ≡ reporting_of task.now }
{
    match task {
        Task::ApplyUntilRefused => Reporting::Row,
        Task::ApplyAsExpected { .. } => Reporting::Row,
        Task::CheckTable { .. } => Reporting::Table,
        Task::EnterTable { .. } => Reporting::Table,
        _ => Reporting::Nothing,
    }
}

/// The exit status of what was done, as `status_of_file`; of what a task has said by itself nothing more is said: 1.
pub(crate) fn conclude<F: FaultStream>(
    alloc: Global,
    reporting: Reporting,
    outcome: Result<(), RefusalText>,
    start: &[u8],
    faults: &mut F,
) -> u8
    ensures { MatchBool (is_said reporting outcome) ((result ≡ 1) × (faults.new ≡ faults.old))
        (Finishes F.contents F.failed outcome result faults.old faults.new) }
{
    if is_said(reporting, outcome) {
        REFUSED
    } else {
        status_of_file(alloc, outcome, start, faults)
    }
}

/// Whether a task has said by itself why something was refused.
fn is_said(reporting: Reporting, outcome: Result<(), RefusalText>) -> bool
    ensures { result ≡ is_said reporting outcome }
{
    match reporting {
        Reporting::Nothing => false,
        Reporting::Row => names_row(outcome),
        Reporting::Table => has_bad_rows(outcome),
    }
}

/// Whether a row is named as refused.
fn names_row(outcome: Result<(), RefusalText>) -> bool
    ensures { result ≡ names_row outcome }
{
    match outcome {
        Ok(()) => false,
        Err(text) => text.refusal.at.is_some(),
    }
}

/// Whether rows are refused that a task has named by itself.
fn has_bad_rows(outcome: Result<(), RefusalText>) -> bool
    ensures { result ≡ has_bad_rows outcome }
{
    match outcome {
        Ok(()) => false,
        Err(text) => matches!(text.refusal.kind, RefusalKind::BadRow),
    }
}
