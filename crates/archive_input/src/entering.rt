//! Requests that are performed once.

ghost use Rattle.std.specs.Prelude.{Ok};
ghost use Rattle.archive_input.specs.Applying.{Steps};

use archive_core::Request;
use receipts::Answer;
use record_text::Refusal;
use sqlite::Alter;
use std::alloc::Global;
use store::Archive;

/// Performs a request that is not asked again: on an archive that takes none it is refused with 81 or 84, and nothing
/// is done.
pub fn perform_once<S: Alter>(
    alloc: Global,
    archive: &mut Archive<S>,
    request: Request,
) -> Result<Answer, Refusal>
    ensures { Steps S.Store (Ok (request, result)) archive.old archive.new }
{
    let outcome = archive.perform(alloc, &request);
    drop(request);
    outcome
}
