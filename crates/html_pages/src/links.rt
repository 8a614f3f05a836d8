//! Links to persons and registers, which stand as texts where nothing is shown.

ghost use Rattle.std.specs.Prelude.{◌≡◌, ◌++◌, OnOk, Some};
ghost use Rattle.std.specs.FinMap as map;
ghost use Rattle.record_kinds.specs.declared.record.Record.TheVariants as kind;
ghost use Rattle.html_pages.specs.Links as links;

use crate::library::HtmlLibrary;
use html_parts::{Parts, Route};
use record_kinds::{Person, Record};
use sheet_lines::display_of;
use std::alloc::{AllocError, Global};

/// Appends a link to a person; `?` where none is shown.
pub fn push_person_link(
    alloc: Global,
    out: &mut Parts,
    library: &HtmlLibrary,
    number: u32,
) -> Result<(), AllocError>
    ensures { OnOk result (out.new ≡ out.old ++ links.person_link number (map.get library.now.records number)) }
{
    match library.record(number) {
        Some(Record::Person(person)) => push_display_link(alloc, out, number, person),
        _ => out.words(alloc, "?"),
    }
}

fn push_display_link(
    alloc: Global,
    out: &mut Parts,
    number: u32,
    person: &Person,
) -> Result<(), AllocError>
    ensures { OnOk result (out.new ≡ out.old ++ links.person_link number (Some (kind.Person person.now))) }
{
    let shown = display_of(alloc, person)?;
    out.link(alloc, Route::Person(number), shown.as_str())
}

/// Appends a link with that text to the register of a source; only the text where none is shown.
pub fn push_register_link(
    alloc: Global,
    out: &mut Parts,
    library: &HtmlLibrary,
    number: u32,
    text: &str,
) -> Result<(), AllocError>
    ensures { OnOk result (out.new ≡ out.old
        ++ links.register_link number text.now (map.get library.now.records number)) }
{
    match library.record(number) {
        Some(Record::Source(_)) => out.link(alloc, Route::Register(number), text),
        _ => out.words(alloc, text),
    }
}
