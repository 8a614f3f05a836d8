//! The rows of an import that come after its lines: its links, what its records are looked for by, and their spans.

ghost use Rattle.std.specs.Prelude.{IfOk};
ghost use Rattle.staging.specs.Opened.{AreLater};

use crate::dated::{Dated, spans_of_puts};
use crate::linked::links_of_puts;
use crate::looked_for::soughts_of_puts;
use archive_state::Numbered;
use std::alloc::{AllocError, Global};
use store_tables::{LinkRow, SoughtRow};

/// These rows, in the order in which they are written.
#[derive(Drop)]
pub(crate) struct Later {
    /// Each link of a record once, in the order in which the database keeps links.
    pub(crate) links: Vec<LinkRow>,
    /// What the records are looked for by, of those that are.
    pub(crate) soughts: Vec<SoughtRow>,
    /// The spans of the records, of those that have a date.
    pub(crate) spans: Vec<Dated>,
}

/// The rows that come after the lines of these records.
pub(crate) fn later_of_puts(alloc: Global, puts: &[Numbered]) -> Result<Later, AllocError>
    ensures { IfOk result (λ later. AreLater puts.now later) }
{
    Ok(Later {
        links: links_of_puts(alloc, puts)?,
        soughts: soughts_of_puts(alloc, puts)?,
        spans: spans_of_puts(alloc, puts)?,
    })
}
