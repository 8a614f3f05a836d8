//! The lines of pedigrees, of the index and of the pages of surnames.

ghost use Rattle.std.specs.Prelude.{◌≡◌, ◌++◌, OnOk, option_copied, string_bytes};
ghost use Rattle.sheet_lines.specs.Lines as lines;

use crate::words::{push_dated, push_right};
use record_fields::Date;
use std::alloc::AllocError;

/// Appends what a pedigree tells of a person: the display, and the dates of birth and death.
pub fn push_ancestor_words(
    out: &mut String,
    shown: &str,
    birth: Option<&Date>,
    death: Option<&Date>,
) -> Result<(), AllocError>
    ensures { OnOk result (string_bytes out.new ≡ string_bytes out.old
        ++ lines.ancestor_words shown.now (option_copied birth.entry) (option_copied death.entry)) }
{
    out.push_str(shown)?;
    push_dated(out, ", b. ", birth)?;
    push_dated(out, ", d. ", death)
}

/// Appends the line of who stands at a number of a pedigree, with these words.
pub fn push_ancestor(out: &mut String, number: u32, words: &str) -> Result<(), AllocError>
    ensures { OnOk result (string_bytes out.new ≡ string_bytes out.old
        ++ lines.ancestor_line number words.now) }
{
    push_right(out, 4, number)?;
    write!(out, "  {words}\n")
}

/// Appends how many persons, families and registers there are.
pub fn push_index(
    out: &mut String,
    persons: usize,
    families: usize,
    registers: usize,
) -> Result<(), AllocError>
    ensures { OnOk result (string_bytes out.new ≡ string_bytes out.old
        ++ lines.index_page persons families registers) }
{
    write!(out, "Persons: {persons}\n")?;
    write!(out, "Families: {families}\n")?;
    write!(out, "Registers: {registers}\n")
}

/// Appends the line of a person on the page of a surname.
pub fn push_surname(out: &mut String, number: u32, shown: &str) -> Result<(), AllocError>
    ensures { OnOk result (string_bytes out.new ≡ string_bytes out.old ++ lines.surname_line number shown.now) }
{
    push_right(out, 10, number)?;
    write!(out, "  {shown}\n")
}
