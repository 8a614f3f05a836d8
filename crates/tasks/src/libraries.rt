//! What may be shown of an archive that is open, for a reading room.

ghost use Rattle.std.specs.Prelude.{◌≡◌, false};
ghost use Rattle.sqlite.specs.Held.{state};
ghost use Rattle.archive_output.specs.Reading.{OnlyReadsAny};
ghost use Rattle.tasks.specs.Parts.{Shelves};
ghost use Rattle.tasks.specs.Status.{is_80};

use crate::status::placeless;
use archive_output::{Shelf, shelf_of};
use record_text::RefusalText;
use sqlite::Alter;
use std::alloc::Global;
use store::Archive;

/// What may be shown of the archive on a day. Refusals as of `archive_output::shelf_of`.
pub(crate) fn show_library<S: Alter>(
    alloc: Global,
    archive: &mut Archive<S>,
    today: i32,
) -> (Result<(), RefusalText>, Option<Shelf>)
    requires kept { archive.old.is_lost ≡ false }
    ensures shelves { Shelves (state S.Store archive.old.conn) (state S.Store archive.new.conn) today result.0
        result.1 }
    ensures reads { OnlyReadsAny S.Store archive.old archive.new }
    ensures lost { archive.new.is_lost ≡ is_80 result.0 }
{
    match shelf_of(alloc, archive, today) {
        Ok(shelf) => (Ok(()), Some(shelf)),
        Err(kind) => (Err(placeless(kind)), None),
    }
}
