//! The pages of a search.

ghost use Rattle.std.specs.Prelude.{◌≡◌, ◌++◌, IfOk, OnOk, Some, length, option_copied, option_map, chars};
ghost use Rattle.std.specs.FinMap as map;
ghost use Rattle.record_kinds.specs.declared.record.Record.TheVariants as kind;
ghost use Rattle.sheets.specs.Gathered.{gathered};
ghost use Rattle.html_parts.specs.Frame.{frame_parts};
ghost use Rattle.html_parts.specs.Parts.{page_bytes};
ghost use Rattle.html_lists.specs.Labels.{label_word};
ghost use Rattle.html_lists.specs.Searches as searches;
ghost use Rattle.html_lists.specs.Surnames.{person_at};
ghost use Rattle.html_lists.specs.declared.label.Label.TheVariants as label;

use crate::first_page::push_register;
use crate::label::Label;
use crate::paging::{Paged, Place, last_page, page_of, push_page};
use crate::surnames::push_counted;
use html_pages::{
    HtmlLibrary, Listing, entry_words, page_with, push_person_link, push_register_link,
};
use html_parts::{Parts, Words};
use html_text::Element;
use record_kinds::{Entry, Record};
use std::alloc::{AllocError, Global};

/// A page of what is found. `None`: there is no such page.
pub(crate) fn found_page(
    alloc: Global,
    library: &HtmlLibrary,
    society: &str,
    text: &str,
    page: usize,
    numbers: &[u32],
) -> Result<Option<Words>, AllocError>
    ensures { IfOk result (λ found. found ≡ option_map page_bytes
        (searches.search_in society.now (gathered library.now.records) text.now page numbers.now)) }
{
    match page_of(numbers, page) {
        None => Ok(None),
        Some(shown) => shown_page(alloc, library, society, text, page, numbers, shown),
    }
}

/// The page that shows some of what is found.
fn shown_page(
    alloc: Global,
    library: &HtmlLibrary,
    society: &str,
    text: &str,
    page: usize,
    numbers: &[u32],
    shown: &[u32],
) -> Result<Option<Words>, AllocError>
    ensures { IfOk result (λ found. found ≡ Some (page_bytes (frame_parts society.now (label_word label.Search)
        (searches.search_parts (gathered library.now.records) text.now page (length numbers.now) shown.now)))) }
{
    let mut main = Parts::new(alloc);
    push_found(alloc, &mut main, library, text, page, numbers, shown)?;
    page_with(alloc, society, Label::Search.as_str(), main)
}

fn push_found(
    alloc: Global,
    out: &mut Parts,
    library: &HtmlLibrary,
    text: &str,
    page: usize,
    numbers: &[u32],
    shown: &[u32],
) -> Result<(), AllocError>
    ensures { OnOk result (out.new ≡ out.old ++ searches.search_parts (gathered library.now.records)
        text.now page (length numbers.now) shown.now) }
{
    out.element(alloc, Element::H1, Label::Search.as_str())?;
    out.form(alloc, text)?;
    push_counted(alloc, out, Label::Found, numbers.len())?;
    let paged = Paged::Search(Words::of(alloc, text)?);
    let place = Place {
        page,
        last: last_page(numbers.len()),
    };
    push_page(alloc, out, library, &Found, shown, &paged, place)
}

/// Persons, registers and register entries by their numbers.
struct Found;

impl Listing<u32> for Found {
    ghost use Rattle.html_lists.specs.Searches.{found_at};

    ghost parts = { λ s g. found_at g };

    fn push(
        &self,
        alloc: Global,
        out: &mut Parts,
        library: &HtmlLibrary,
        item: &u32,
    ) -> Result<(), AllocError> {
        match library.record(*item) {
            Some(Record::Source(source)) => push_register(alloc, out, *item, source),
            Some(Record::Entry(entry)) => push_entry(alloc, out, library, entry),
            _ => push_person(alloc, out, library, *item),
        }
    }
}

fn push_person(
    alloc: Global,
    out: &mut Parts,
    library: &HtmlLibrary,
    number: u32,
) -> Result<(), AllocError>
    ensures { OnOk result (out.new ≡ out.old ++ person_at (gathered library.now.records) number) }
{
    out.start(Element::Li)?;
    push_person_link(alloc, out, library, number)?;
    out.end(Element::Li)
}

fn push_entry(
    alloc: Global,
    out: &mut Parts,
    library: &HtmlLibrary,
    entry: &Entry,
) -> Result<(), AllocError>
    ensures { OnOk result (out.new ≡ out.old ++ searches.entry_item (map.get library.now.records) entry.now) }
{
    let words = entry_words(alloc, entry)?;
    out.start(Element::Li)?;
    push_register_link(alloc, out, library, entry.source, words.as_str())?;
    out.end(Element::Li)
}
