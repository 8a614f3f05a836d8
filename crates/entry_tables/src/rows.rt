//! The rows of a table.

ghost use Rattle.std.specs.Prelude.{
  ◌≡◌,
  ◌∷◌,
  ◌++◌,
  [],
  IfOk,
  OnOk,
  chars,
  decimal,
  encode_utf8_all,
  map,
  replicate,
  string_bytes,
};
ghost use Rattle.std.specs.List.{flat_map};
ghost use Rattle.list_rows.specs.Cells.{cell};
ghost use Rattle.entry_tables.specs.Tables as tables;

use crate::columns::{Width, count, is_in};
use crate::written::Numbered;
use list_rows::{Row, push_row};
use record_fields::{Date, Role};
use record_kinds::{Entry, Mention};
use searching::shown_character;
use std::alloc::{AllocError, Global};

/// Appends a row for each entry.
pub(crate) fn push_entries(
    alloc: Global,
    out: &mut Vec<u8>,
    widths: &[Width],
    entries: &[Numbered],
) -> Result<(), AllocError>
    ensures { OnOk result (out.new.items ≡ out.old.items ++ flat_map (tables.entry_row widths.now) entries.now) }
{
    'each: for one in entries {
        push_entry(alloc, out, widths, one)?;
    }
    Ok(())
}

fn push_entry(
    alloc: Global,
    out: &mut Vec<u8>,
    widths: &[Width],
    one: &Numbered,
) -> Result<(), AllocError>
    ensures { OnOk result (out.new.items ≡ out.old.items ++ tables.entry_row widths.now one.now) }
{
    let row = row_of(alloc, widths, one)?;
    push_row(alloc, out, &row)
}

fn row_of(alloc: Global, widths: &[Width], one: &Numbered) -> Result<Row, AllocError>
    ensures { IfOk result (λ row. row ≡ tables.entry_cells widths.now one.now) }
{
    let mut row = own_cells(alloc, one.number, &one.entry)?;
    push_roles(alloc, &mut row, widths, &one.entry.mentions)?;
    Ok(row)
}

/// The cells that each entry has.
fn own_cells(alloc: Global, number: u32, entry: &Entry) -> Result<Row, AllocError>
    ensures { IfOk result (λ row. row ≡ tables.own_cells (number, entry.now)) }
{
    let mut row = Row::new(alloc);
    push_number(alloc, &mut row, number)?;
    row.push(alloc, entry.kind.as_str().as_bytes())?;
    push_text(alloc, &mut row, entry.page.as_str())?;
    push_number(alloc, &mut row, entry.item.number)?;
    push_date(alloc, &mut row, &entry.date)?;
    push_place(alloc, &mut row, entry.place)?;
    push_text(alloc, &mut row, entry.text.as_str())?;
    Ok(row)
}

fn push_number(alloc: Global, row: &mut Row, number: u32) -> Result<(), AllocError>
    ensures { OnOk result (row.new ≡ row.old ++ cell (decimal number) ∷ []) }
{
    let digits = number.to_string(alloc)?;
    row.push(alloc, digits.as_bytes())
}

/// Adds a text as it is printed.
fn push_text(alloc: Global, row: &mut Row, text: &str) -> Result<(), AllocError>
    ensures { OnOk result (row.new ≡ row.old ++ tables.text_cell text.now ∷ []) }
{
    let printed = printed(alloc, text)?;
    row.push(alloc, printed.as_bytes())
}

/// The text as it is printed: each control character but LF, and each that turns the direction, is a space.
fn printed(alloc: Global, text: &str) -> Result<String, AllocError>
    ensures { IfOk result (λ s. string_bytes s ≡ encode_utf8_all (map tables.shown_in_cell (chars text.now))) }
{
    text.chars().map(|c| shown_in_cell(c)).collect(alloc)
}

fn shown_in_cell(c: char) -> char
    ensures { result ≡ tables.shown_in_cell c }
{
    if c == '\n' { '\n' } else { shown_character(c) }
}

fn push_date(alloc: Global, row: &mut Row, date: &Option<Date>) -> Result<(), AllocError>
    ensures { OnOk result (row.new ≡ row.old ++ tables.date_cell date.now ∷ []) }
{
    match date {
        Some(date) => push_text(alloc, row, date.as_str()),
        None => row.push(alloc, b""),
    }
}

fn push_place(alloc: Global, row: &mut Row, place: Option<u32>) -> Result<(), AllocError>
    ensures { OnOk result (row.new ≡ row.old ++ tables.place_cell place ∷ []) }
{
    match place {
        Some(number) => push_number(alloc, row, number),
        None => row.push(alloc, b""),
    }
}

/// Adds the cells of all roles.
fn push_roles(
    alloc: Global,
    row: &mut Row,
    widths: &[Width],
    mentions: &[Mention],
) -> Result<(), AllocError>
    ensures { OnOk result (row.new
        ≡ row.old ++ flat_map (λ w. tables.role_cells w.0 w.1 mentions.now) widths.now) }
{
    'each: for width in widths {
        push_role(alloc, row, width.role, width.columns, mentions)?;
    }
    Ok(())
}

fn push_role(
    alloc: Global,
    row: &mut Row,
    role: Role,
    columns: usize,
    mentions: &[Mention],
) -> Result<(), AllocError>
    ensures { OnOk result (row.new ≡ row.old ++ tables.role_cells role columns mentions.now) }
{
    push_names(alloc, row, role, mentions)?;
    push_empty(alloc, row, columns.saturating_sub(count(role, mentions)))
}

/// Adds the names of those who are mentioned in a role.
fn push_names(
    alloc: Global,
    row: &mut Row,
    role: Role,
    mentions: &[Mention],
) -> Result<(), AllocError>
    ensures { OnOk result (row.new ≡ row.old ++ flat_map (tables.name_cell role) mentions.now) }
{
    'each: for mention in mentions {
        push_name(alloc, row, role, mention)?;
    }
    Ok(())
}

fn push_name(alloc: Global, row: &mut Row, role: Role, mention: &Mention) -> Result<(), AllocError>
    ensures { OnOk result (row.new ≡ row.old ++ tables.name_cell role mention.now) }
{
    if is_in(role, mention) {
        push_text(alloc, row, mention.name.as_str())?;
    }
    Ok(())
}

/// Adds so many empty cells.
fn push_empty(alloc: Global, row: &mut Row, cells: usize) -> Result<(), AllocError>
    ensures { OnOk result (row.new ≡ row.old ++ replicate cells []) }
{
    'each: for before in 0..cells {
        row.push(alloc, b"")?;
    }
    Ok(())
}
