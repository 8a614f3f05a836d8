//! Which refusals say that the database failed.

ghost use Rattle.std.specs.Prelude.{◌≡◌};
ghost use Rattle.archive_state.specs.Looks as looks;
ghost use Rattle.store.specs.Histories as history;

use receipts::Answer;
use record_text::{Refusal, RefusalKind};

/// Whether a refusal says that the database failed.
pub(crate) fn is_storage(kind: RefusalKind) -> bool
    ensures { result ≡ history.is_storage kind }
{
    matches!(kind, RefusalKind::Storage)
}

/// Whether a refusal may come in place of any other answer: 1, 40 or 80.
pub(crate) fn is_stop(kind: RefusalKind) -> bool
    ensures { result ≡ looks.is_stop kind }
{
    matches!(
        kind,
        RefusalKind::OutOfMemory | RefusalKind::BadStored | RefusalKind::Storage
    )
}

/// Whether a refusal of a look says that a read failed: 40 or 80.
pub(crate) fn is_failure(kind: RefusalKind) -> bool
    ensures { result ≡ looks.is_failure kind }
{
    matches!(kind, RefusalKind::BadStored | RefusalKind::Storage)
}

/// Whether a request was refused because the database failed.
pub(crate) fn has_failed(outcome: &Result<Answer, Refusal>) -> bool
    ensures { result ≡ history.has_failed outcome.now }
{
    match outcome {
        Ok(_) => false,
        Err(refusal) => is_storage(refusal.kind),
    }
}

/// The same of any call that refuses with a place.
pub(crate) fn loses<T>(outcome: &Result<T, Refusal>) -> bool
    ensures { result ≡ history.loses outcome.now }
{
    match outcome {
        Ok(_) => false,
        Err(refusal) => is_storage(refusal.kind),
    }
}

/// Whether a call that reads was refused because the database failed.
pub(crate) fn has_broken<T>(read: &Result<T, RefusalKind>) -> bool
    ensures { result ≡ history.has_broken read.now }
{
    match read {
        Ok(_) => false,
        Err(kind) => is_storage(*kind),
    }
}
