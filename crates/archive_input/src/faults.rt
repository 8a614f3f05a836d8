//! Faults of files as refusals.

ghost use Rattle.std.specs.Prelude.{◌≡◌};
ghost use Rattle.gedcom_rules.specs.Views.{fault_view};
ghost use Rattle.archive_input.specs.Faults as faults;

use gedcom_rules::{TreeFault, TreeKind};
use record_text::{Refusal, RefusalKind};

/// The refusal of a fault, with its number, its name and its line. Takes no memory.
pub fn refusal_of(fault: TreeFault) -> Refusal
    ensures { result ≡ faults.refusal_of (fault_view fault) }
{
    Refusal {
        kind: kind_of(fault.kind),
        at: fault.at,
    }
}

fn kind_of(kind: TreeKind) -> RefusalKind
    ensures { result ≡ faults.kind_of kind }
{
    match kind {
        TreeKind::OutOfMemory => RefusalKind::OutOfMemory,
        TreeKind::NotUtf8 => RefusalKind::NotUtf8,
        TreeKind::BadLevel => RefusalKind::BadLevel,
        TreeKind::BadXref => RefusalKind::BadXref,
        TreeKind::BadTag => RefusalKind::BadTag,
        TreeKind::TooLong => RefusalKind::TooLong,
        TreeKind::Nul => RefusalKind::Nul,
        TreeKind::LevelJump => RefusalKind::LevelJump,
        TreeKind::NoHead => RefusalKind::NoHead,
        TreeKind::NoTrailer => RefusalKind::NoTrailer,
        TreeKind::AfterTrailer => RefusalKind::AfterTrailer,
        TreeKind::BadContinuation => RefusalKind::BadContinuation,
        TreeKind::ContinuationHasChildren => RefusalKind::ContinuationHasChildren,
        TreeKind::DuplicateXref => RefusalKind::DuplicateXref,
        TreeKind::FileTooLarge => RefusalKind::FileTooLarge,
        TreeKind::TextTooLong => RefusalKind::TextTooLong,
        TreeKind::Charset => RefusalKind::Charset,
        TreeKind::Version => RefusalKind::Version,
        TreeKind::ReadFailed => RefusalKind::ReadFailed,
        TreeKind::WriteFailed => RefusalKind::WriteFailed,
    }
}
