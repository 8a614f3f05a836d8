//! The words of batches.

ghost use Rattle.entry_batches.specs.Words.{AreUtf8Entries};

use archive_steps::tell_entry;
use commands::EntryRow;

/// Does nothing: it tells a proof that the words of the rows are UTF-8.
pub fn tell_entries(rows: &[EntryRow])
    ensures { AreUtf8Entries rows.now }
{
    'rows: for row in rows {
        tell_entry(row);
    }
}
