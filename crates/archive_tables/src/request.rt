//! The request that a page is on an archive.

ghost use Rattle.std.specs.Prelude.{◌≡◌, IfOk, MatchResult, List, Err, Ok};
ghost use Rattle.commands.specs.declared.entry_row.EntryRow.{EntryRow as SpecRow};
ghost use Rattle.archive_tables.specs.Entering.{page_request};
ghost use Rattle.page_batches.specs.Batches as batches;
ghost use Rattle.page_batches.specs.Words.{numbers_of};

use archive_core::Request;
use commands::Command;
use page_batches::{BatchRefusal, Places, numbers_of, page_digest, rows_with};
use page_entries::PageEntry;
use receipts::Token;
use std::alloc::{AllocError, Global};

/// The request that a page is on an archive, and the numbers of its rows as the sheet shows them.
#[derive(Drop)]
pub(crate) struct PageRequest {
    pub request: Request,
    pub numbers: Vec<usize>,
}

/// The request of a page with the places that were found for its entries, or the refusal of the first that has none.
pub(crate) fn request_of(
    alloc: Global,
    token: Token,
    source: u32,
    entries: Vec<PageEntry>,
    found: &Places,
) -> Result<Result<PageRequest, BatchRefusal>, AllocError>
    ensures { IfOk result (λ r. MatchResult r
        (λ page. (rows : List SpecRow) × (batches.rows_by entries.items (Ok found.now) ≡ Ok rows)
        × (page.request ≡ page_request token source entries.items rows)
        × (page.numbers.items ≡ numbers_of entries.items))
        (λ e. batches.rows_by entries.items (Ok found.now) ≡ Err e)) }
{
    let digest = page_digest(alloc, source, &entries)?;
    let numbers = numbers_of(alloc, &entries)?;
    match rows_with(alloc, entries, found)? {
        Ok(rows) => Ok(Ok(PageRequest {
            request: Request {
                token,
                command: Command::Entries { source, rows },
                digest: Some(digest),
            },
            numbers,
        })),
        Err(refusal) => Ok(Err(refusal)),
    }
}
