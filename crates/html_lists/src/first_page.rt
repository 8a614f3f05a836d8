//! The first page: what it counts, the field of a search, the registers, and the surnames.

ghost use Rattle.std.specs.Prelude.{◌≡◌, ◌++◌, IfOk, OnOk, Some, length, string_bytes};
ghost use Rattle.std.specs.FinMap as map;
ghost use Rattle.record_kinds.specs.declared.record.Record.TheVariants as kind;
ghost use Rattle.sheets.specs.Gathered.{gathered};
ghost use Rattle.html_parts.specs.Parts.{page_bytes};
ghost use Rattle.html_lists.specs.Home as home;

use crate::label::Label;
use crate::letters::push_surnames;
use crate::registers::title_of;
use html_pages::{HtmlLibrary, Listing, push_section};
use html_parts::{Parts, Route, Words, framed};
use html_text::Element;
use record_kinds::{Record, Source};
use std::alloc::{AllocError, Global};

/// The first page.
pub(crate) fn first_page(
    alloc: Global,
    library: &HtmlLibrary,
    society: &str,
) -> Result<Words, AllocError>
    ensures { IfOk result (λ page. page ≡ page_bytes (home.home_page library.now.records society.now)) }
{
    let mut main = Parts::new(alloc);
    push_home(alloc, &mut main, library, society)?;
    let text = framed(alloc, society, Label::Home.as_str(), main)?;
    Ok(Words::new(text))
}

fn push_home(
    alloc: Global,
    out: &mut Parts,
    library: &HtmlLibrary,
    society: &str,
) -> Result<(), AllocError>
    ensures { OnOk result (out.new ≡ out.old ++ home.home_parts (gathered library.now.records) society.now) }
{
    out.element(alloc, Element::H1, society)?;
    out.form(alloc, "")?;
    push_counts(alloc, out, library)?;
    push_lists(alloc, out, library)
}

fn push_lists(alloc: Global, out: &mut Parts, library: &HtmlLibrary) -> Result<(), AllocError>
    ensures { OnOk result (out.new ≡ out.old ++ home.lists_parts (gathered library.now.records)) }
{
    push_registers(alloc, out, library)?;
    push_surnames(alloc, out, library)
}

/// Appends the section of the registers.
fn push_registers(alloc: Global, out: &mut Parts, library: &HtmlLibrary) -> Result<(), AllocError>
    ensures { OnOk result (out.new ≡ out.old ++ home.registers_parts (gathered library.now.records)) }
{
    push_section(
        alloc,
        out,
        library,
        Label::Registers.as_str(),
        &Registers,
        library.sources(),
    )
}

fn push_counts(alloc: Global, out: &mut Parts, library: &HtmlLibrary) -> Result<(), AllocError>
    ensures { OnOk result (out.new ≡ out.old ++ home.counts_parts (gathered library.now.records)) }
{
    out.start(Element::Ul)?;
    push_count(alloc, out, Label::Persons, library.persons().len())?;
    push_count(alloc, out, Label::Families, library.families().len())?;
    push_count(alloc, out, Label::Sources, library.sources().len())?;
    out.end(Element::Ul)
}

fn push_count(alloc: Global, out: &mut Parts, label: Label, count: usize) -> Result<(), AllocError>
    ensures { OnOk result (out.new ≡ out.old ++ home.count_item label count) }
{
    out.start(Element::Li)?;
    out.words(alloc, label.as_str())?;
    out.number(alloc, count)?;
    out.end(Element::Li)
}

/// Registers by their numbers.
struct Registers;

impl Listing<u32> for Registers {
    ghost use Rattle.html_lists.specs.Home.{register_at};

    ghost parts = { λ s g. register_at g };

    fn push(
        &self,
        alloc: Global,
        out: &mut Parts,
        library: &HtmlLibrary,
        item: &u32,
    ) -> Result<(), AllocError> {
        match library.record(*item) {
            Some(Record::Source(source)) => push_register(alloc, out, *item, source),
            _ => Ok(()),
        }
    }
}

pub(crate) fn push_register(
    alloc: Global,
    out: &mut Parts,
    number: u32,
    source: &Source,
) -> Result<(), AllocError>
    ensures { OnOk result (out.new ≡ out.old ++ home.register_item number (Some (kind.Source source.now))) }
{
    let title = title_of(alloc, &source.title)?;
    out.start(Element::Li)?;
    out.link(alloc, Route::Register(number), title.as_str())?;
    out.end(Element::Li)
}
