//! Register entries as a table.

ghost use Rattle.std.specs.Prelude.{◌≡◌, IfOk};
ghost use Rattle.entry_tables.specs.Tables as tables;

use crate::columns::{Width, header, widths};
use crate::rows::push_entries;
use list_rows::push_row;
use record_kinds::Entry;
use std::alloc::{AllocError, Global};
use std::marker::Model;

/// A register entry with its number. Contracts see both.
#[derive(Drop)]
pub struct Numbered {
    pub number: u32,
    pub entry: Entry,
}

impl Model for Numbered {
    ghost use Rattle.std.specs.Prelude.{ℕ};
    ghost use Rattle.record_kinds.specs.Model as model;

    ghost Value = { ℕ × model.Entry };

    ghost view = { λ a. (a.number, a.entry) };
}

/// The entries as rows of CSV below a header. The columns are those of a page of a spreadsheet, and one more before
/// them for the number of the entry, which is not read of a page; there are as many of a role as some entry has
/// mentions in it.
pub fn table(alloc: Global, entries: &[Numbered]) -> Result<Vec<u8>, AllocError>
    ensures { IfOk result (λ bytes. bytes.items ≡ tables.table entries.now) }
{
    let widths = widths(alloc, entries)?;
    rows(alloc, &widths, entries)
}

fn rows(alloc: Global, widths: &[Width], entries: &[Numbered]) -> Result<Vec<u8>, AllocError>
    ensures { IfOk result (λ bytes. bytes.items ≡ tables.rows widths.now entries.now) }
{
    let mut out = Vec::new(alloc);
    push_row(alloc, &mut out, &header(alloc, widths)?)?;
    push_entries(alloc, &mut out, widths, entries)?;
    Ok(out)
}
