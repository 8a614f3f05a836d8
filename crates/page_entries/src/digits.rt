//! Numbers in cells.

ghost use Rattle.std.specs.Prelude.{◌≡◌, ◌≤◌, length};
ghost use Rattle.std.specs.Char.{is_ascii_digit};
ghost use Rattle.std.specs.List.{list_all};
ghost use Rattle.record_text.specs.declared.refusal.RefusalKind.TheVariants as refusal;
ghost use Rattle.commands.specs.Items.{item_at};
ghost use Rattle.commands.specs.Rows as rows;
ghost use Rattle.page_entries.specs.Digits as digits;

use record_fields::Item;
use record_text::RefusalKind;

/// Whether there are only digits, at least and at most so many.
pub(crate) fn are_digits(bytes: &[u8], least: usize, most: usize) -> bool
    ensures { result ≡ digits.are_digits least most bytes.now }
{
    least <= bytes.len() && bytes.len() <= most && only_digits(bytes)
}

/// Whether there are only digits.
fn only_digits(bytes: &[u8]) -> bool
    ensures { result ≡ list_all is_ascii_digit bytes.now }
{
    bytes.iter().all(|b| b.is_ascii_digit())
}

/// Whether a text has only digits.
pub(crate) fn is_digits(text: &str) -> bool
    ensures { result ≡ list_all is_ascii_digit text.now }
{
    only_digits(text.as_bytes())
}

/// A cell without `.0` or `,0` at its end, which spreadsheets write after a number.
pub(crate) fn whole(cell: &str) -> &str
    ensures { result.now ≡ digits.whole cell.now }
{
    let bytes = cell.as_bytes();
    let n = bytes.len();
    if n >= 2 && bytes[n - 1] == b'0' && is_point(bytes[n - 2]) {
        &cell[..n - 2]
    } else {
        cell
    }
}

/// A full stop or a comma.
pub(crate) fn is_point(byte: u8) -> bool
    ensures { result ≡ digits.is_point byte }
{
    byte == b'.' || byte == b','
}

/// The number of a cell: 1 to 10 digits, of value 1 to 4,294,967,295.
pub(crate) fn number_in(field: &str) -> Result<u32, RefusalKind>
    ensures { result ≡ rows.number_in field.now }
{
    if field.len() > 10 || !is_digits(field) {
        return Err(RefusalKind::BadRow);
    }
    match field.parse::<u32>() {
        Ok(number) if number != 0 => Ok(number),
        _ => Err(RefusalKind::BadRow),
    }
}

/// The item of a cell, which may have `.0` or `,0` at its end.
#[tactic(auto, unfolding(commands::specs::Rows::item_in))]
pub fn item_in(cell: &str) -> Result<Item, RefusalKind>
    ensures { result ≡ rows.item_in (digits.whole cell.now) }
{
    let number = number_in(whole(cell))?;
    item_of(number)
}

/// The item of a number.
fn item_of(number: u32) -> Result<Item, RefusalKind>
    ensures { result ≡ rows.ok_or refusal.BadRow (item_at number) }
{
    match Item::new(number) {
        Some(item) => Ok(item),
        None => Err(RefusalKind::BadRow),
    }
}
