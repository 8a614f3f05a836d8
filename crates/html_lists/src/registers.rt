//! The pages of a register: its entries by number, each with its transcription, its place and its mentions.

ghost use Rattle.std.specs.Prelude.{
  ◌≡◌,
  ◌++◌,
  ◌∷◌,
  [],
  IfOk,
  OnOk,
  Some,
  filter,
  length,
  option_copied,
  option_map,
  string_bytes,
};
ghost use Rattle.std.specs.FinMap as map;
ghost use Rattle.record_kinds.specs.Model as model;
ghost use Rattle.record_kinds.specs.declared.record.Record.TheVariants as kind;
ghost use Rattle.sheet_lines.specs.Lines.{title_words};
ghost use Rattle.sheets.specs.Gathered.{gathered};
ghost use Rattle.html_parts.specs.Frame.{frame_parts};
ghost use Rattle.html_parts.specs.Parts.{page_bytes};
ghost use Rattle.html_lists.specs.Paging.{last_page as last_of};
ghost use Rattle.html_lists.specs.Registers as registers;

use crate::label::Label;
use crate::paging::{Paged, Place, last_page, page_of, push_page};
use html_pages::{HtmlLibrary, Listing, entry_words, in_brackets, page_with, push_items};
use html_parts::{Class, Part, Parts, Route, Words};
use html_text::Element;
use record_kinds::{Entry, Link, Mention, Record, Source};
use record_text::Text;
use sheet_lines::push_printed;
use std::alloc::{AllocError, Global};

/// A page of a register, from 1 on. `None`: no source that is shown has the number, or there is no such page.
pub fn register(
    alloc: Global,
    library: &HtmlLibrary,
    society: &str,
    number: u32,
    page: usize,
) -> Result<Option<Words>, AllocError>
    ensures { IfOk result (λ found. found
        ≡ option_map page_bytes (registers.register_page library.now.records society.now number page)) }
{
    match library.record(number) {
        Some(Record::Source(source)) => {
            page_of_source(alloc, library, society, number, page, source)
        }
        _ => Ok(None),
    }
}

fn page_of_source(
    alloc: Global,
    library: &HtmlLibrary,
    society: &str,
    number: u32,
    page: usize,
    source: &Source,
) -> Result<Option<Words>, AllocError>
    ensures { IfOk result (λ found. found ≡ option_map page_bytes (registers.register_in society.now
        (gathered library.now.records) number page (Some (kind.Source source.now)))) }
{
    let entries = entries_of(alloc, library, number)?;
    entries_page(alloc, library, society, number, page, source, &entries)
}

/// A page of these entries of a source. `None`: there is no such page.
fn entries_page(
    alloc: Global,
    library: &HtmlLibrary,
    society: &str,
    number: u32,
    page: usize,
    source: &Source,
    entries: &[u32],
) -> Result<Option<Words>, AllocError>
    ensures { IfOk result (λ found. found ≡ option_map page_bytes (registers.entries_page society.now
        (gathered library.now.records) number page (title_words source.now.title) entries.now)) }
{
    match page_of(entries, page) {
        None => Ok(None),
        Some(shown) => shown_page(
            alloc, library, society, number, page, source, entries, shown,
        ),
    }
}

/// The page that shows some of these entries.
fn shown_page(
    alloc: Global,
    library: &HtmlLibrary,
    society: &str,
    number: u32,
    page: usize,
    source: &Source,
    entries: &[u32],
    shown: &[u32],
) -> Result<Option<Words>, AllocError>
    ensures { IfOk result (λ found. found ≡ Some (page_bytes (frame_parts society.now (title_words source.now.title)
        (registers.register_parts (gathered library.now.records) (title_words source.now.title) number page
        (length entries.now) shown.now)))) }
{
    let title = title_of(alloc, &source.title)?;
    let mut main = Parts::new(alloc);
    push_register(
        alloc,
        &mut main,
        library,
        title.as_str(),
        number,
        page,
        entries,
        shown,
    )?;
    page_with(alloc, society, title.as_str(), main)
}

/// The numbers of the entries of a source. It looks at all entries.
fn entries_of(alloc: Global, library: &HtmlLibrary, source: u32) -> Result<Vec<u32>, AllocError>
    ensures { IfOk result
        (λ numbers. numbers.items ≡ registers.entries_of (gathered library.now.records) source) }
{
    let mut numbers = Vec::new(alloc);
    add_entries(&mut numbers, library, source, library.entries())?;
    Ok(numbers)
}

/// Puts those of a source after others.
fn add_entries(
    numbers: &mut Vec<u32>,
    library: &HtmlLibrary,
    source: u32,
    all: &[u32],
) -> Result<(), AllocError>
    ensures { OnOk result (numbers.new.items ≡ numbers.old.items ++ filter
        (λ k. registers.is_of source (map.get library.now.records k)) all.now) }
{
    'all: for number in all {
        if is_of(library, source, *number) {
            numbers.push(*number)?;
        }
    }
    Ok(())
}

fn is_of(library: &HtmlLibrary, source: u32, number: u32) -> bool
    ensures { result ≡ registers.is_of source (map.get library.now.records number) }
{
    match library.record(number) {
        Some(Record::Entry(entry)) => entry.source == source,
        _ => false,
    }
}

/// A title as it is printed; `?` without one.
pub(crate) fn title_of(alloc: Global, title: &Option<Text>) -> Result<String, AllocError>
    ensures { IfOk result (λ s. string_bytes s ≡ title_words title.now) }
{
    match title {
        Some(title) => printed(alloc, title.as_str()),
        None => String::from_str(alloc, "?"),
    }
}

fn printed(alloc: Global, text: &str) -> Result<String, AllocError>
    ensures { IfOk result (λ s. string_bytes s ≡ registers.printed_text text.now) }
{
    let mut out = String::new(alloc);
    push_printed(&mut out, text)?;
    Ok(out)
}

fn push_register(
    alloc: Global,
    out: &mut Parts,
    library: &HtmlLibrary,
    title: &str,
    number: u32,
    page: usize,
    entries: &[u32],
    shown: &[u32],
) -> Result<(), AllocError>
    ensures { OnOk result (out.new ≡ out.old ++ registers.register_parts (gathered library.now.records)
        title.now number page (length entries.now) shown.now) }
{
    out.element(alloc, Element::H1, title)?;
    push_note(alloc, out, number, entries.len())?;
    let place = Place {
        page,
        last: last_page(entries.len()),
    };
    push_page(
        alloc,
        out,
        library,
        &Entries,
        shown,
        &Paged::Register(number),
        place,
    )
}

fn push_note(alloc: Global, out: &mut Parts, number: u32, count: usize) -> Result<(), AllocError>
    ensures { OnOk result (out.new ≡ out.old ++ registers.note_parts number count) }
{
    out.push(Part::Styled(Element::P, Class::Note))?;
    out.words(alloc, Label::Register.as_str())?;
    out.number(alloc, number as usize)?;
    out.words(alloc, Label::Entries.as_str())?;
    out.number(alloc, count)?;
    out.end(Element::P)
}

/// Register entries by their numbers.
struct Entries;

impl Listing<u32> for Entries {
    ghost use Rattle.html_lists.specs.Registers.{entry_at};

    ghost parts = { λ s g. entry_at g };

    fn push(
        &self,
        alloc: Global,
        out: &mut Parts,
        library: &HtmlLibrary,
        item: &u32,
    ) -> Result<(), AllocError> {
        match library.record(*item) {
            Some(Record::Entry(entry)) => push_entry(alloc, out, library, entry),
            _ => Ok(()),
        }
    }
}

fn push_entry(
    alloc: Global,
    out: &mut Parts,
    library: &HtmlLibrary,
    entry: &Entry,
) -> Result<(), AllocError>
    ensures { OnOk result (out.new ≡ out.old
        ++ registers.entry_item (gathered library.now.records) (Some (kind.Entry entry.now))) }
{
    let words = entry_words(alloc, entry)?;
    out.start(Element::Li)?;
    out.push(Part::Words(Words::new(words)))?;
    push_place(alloc, out, library, entry.place)?;
    push_text(alloc, out, entry.text.as_str())?;
    push_mentions(alloc, out, library, &entry.mentions)?;
    out.end(Element::Li)
}

fn push_place(
    alloc: Global,
    out: &mut Parts,
    library: &HtmlLibrary,
    place: Option<u32>,
) -> Result<(), AllocError>
    ensures { OnOk result (out.new ≡ out.old
        ++ registers.place_parts (gathered library.now.records).path place) }
{
    match place {
        None => Ok(()),
        Some(place) => {
            let path = library.path(alloc, place)?;
            out.element(alloc, Element::P, path.as_str())
        }
    }
}

/// Appends a transcription, where there is one.
fn push_text(alloc: Global, out: &mut Parts, text: &str) -> Result<(), AllocError>
    ensures { OnOk result (out.new ≡ out.old ++ registers.text_parts text.now) }
{
    if text.is_empty() {
        return Ok(());
    }
    out.push(Part::Styled(Element::P, Class::Text))?;
    out.words(alloc, text)?;
    out.end(Element::P)
}

fn push_mentions(
    alloc: Global,
    out: &mut Parts,
    library: &HtmlLibrary,
    mentions: &[Mention],
) -> Result<(), AllocError>
    ensures { OnOk result (out.new ≡ out.old
        ++ registers.mentions_parts (map.get library.now.records) mentions.now) }
{
    out.start(Element::Ul)?;
    push_items(alloc, out, library, &Mentions, mentions)?;
    out.end(Element::Ul)
}

/// Who is named in an entry.
struct Mentions;

impl Listing<Mention> for Mentions {
    ghost use Rattle.html_lists.specs.Registers.{mention_item};

    ghost parts = { λ s g. mention_item g.at };

    fn push(
        &self,
        alloc: Global,
        out: &mut Parts,
        library: &HtmlLibrary,
        item: &Mention,
    ) -> Result<(), AllocError> {
        out.start(Element::Li)?;
        out.words(alloc, item.role.as_str())?;
        out.words(alloc, ": ")?;
        push_named(alloc, out, library, item)?;
        out.end(Element::Li)
    }
}

fn push_named(
    alloc: Global,
    out: &mut Parts,
    library: &HtmlLibrary,
    mention: &Mention,
) -> Result<(), AllocError>
    ensures { OnOk result (out.new ≡ out.old
        ++ registers.named_parts (map.get library.now.records) mention.now.name mention.now.link) }
{
    match &mention.link {
        None => out.words(alloc, mention.name.as_str()),
        Some(link) => push_linked(alloc, out, library, mention.name.as_str(), link),
    }
}

fn push_linked(
    alloc: Global,
    out: &mut Parts,
    library: &HtmlLibrary,
    name: &str,
    link: &Link,
) -> Result<(), AllocError>
    ensures { OnOk result (out.new ≡ out.old
        ++ registers.named_parts (map.get library.now.records) name.now (Some link.now)) }
{
    push_name_link(alloc, out, library, name, link.person)?;
    let reason = in_brackets(alloc, link.reason.as_str())?;
    out.push(Part::Words(Words::new(reason)))
}

/// Appends a link to a person by that name; only the name where no person is shown.
fn push_name_link(
    alloc: Global,
    out: &mut Parts,
    library: &HtmlLibrary,
    name: &str,
    person: u32,
) -> Result<(), AllocError>
    ensures { OnOk result (out.new ≡ out.old
        ++ registers.name_link person name.now (map.get library.now.records person)) }
{
    match library.record(person) {
        Some(Record::Person(_)) => out.link(alloc, Route::Person(person), name),
        _ => out.words(alloc, name),
    }
}
