//! The pages of a surname.

ghost use Rattle.std.specs.Prelude.{◌≡◌, ◌++◌, IfOk, OnOk, Some, length, option_map};
ghost use Rattle.sheets.specs.Gathered.{gathered};
ghost use Rattle.html_parts.specs.Frame.{frame_parts};
ghost use Rattle.html_parts.specs.Parts.{page_bytes};
ghost use Rattle.html_lists.specs.Surnames as surnames;

use crate::label::Label;
use crate::paging::{Paged, Place, last_page, page_of, push_page};
use html_pages::{HtmlLibrary, Listing, page_with, push_person_link};
use html_parts::{Class, Part, Parts, Words};
use html_text::Element;
use std::alloc::{AllocError, Global};

/// A page, from 1 on, of the persons one of whose names has a surname with the key of that one, by number. An empty
/// surname is that of all names without one, as of every living person, and of persons without any name. `None`: there
/// is no such page.
pub fn surname(
    alloc: Global,
    library: &HtmlLibrary,
    society: &str,
    of: &str,
    page: usize,
) -> Result<Option<Words>, AllocError>
    ensures { IfOk result (λ found. found
        ≡ option_map page_bytes (surnames.surname_page library.now.records society.now of.now page)) }
{
    let numbers = library.called(alloc, of)?;
    match page_of(numbers, page) {
        None => Ok(None),
        Some(shown) => shown_page(alloc, library, society, of, page, numbers, shown),
    }
}

/// The page that shows some of these persons.
fn shown_page(
    alloc: Global,
    library: &HtmlLibrary,
    society: &str,
    of: &str,
    page: usize,
    numbers: &[u32],
    shown: &[u32],
) -> Result<Option<Words>, AllocError>
    ensures { IfOk result (λ found. found ≡ Some (page_bytes (frame_parts society.now (surnames.titled of.now)
        (surnames.surname_parts (gathered library.now.records) of.now page (length numbers.now) shown.now)))) }
{
    let mut main = Parts::new(alloc);
    push_surname(alloc, &mut main, library, of, page, numbers, shown)?;
    page_with(alloc, society, titled(of), main)
}

/// A surname as a title; `?` for an empty one.
pub(crate) fn titled(of: &str) -> &str
    ensures { result.now ≡ surnames.titled of.now }
{
    if of.is_empty() { "?" } else { of }
}

fn push_surname(
    alloc: Global,
    out: &mut Parts,
    library: &HtmlLibrary,
    of: &str,
    page: usize,
    numbers: &[u32],
    shown: &[u32],
) -> Result<(), AllocError>
    ensures { OnOk result (out.new ≡ out.old ++ surnames.surname_parts (gathered library.now.records)
        of.now page (length numbers.now) shown.now) }
{
    out.element(alloc, Element::H1, titled(of))?;
    push_counted(alloc, out, Label::Persons, numbers.len())?;
    let paged = Paged::Surname(Words::of(alloc, of)?);
    let place = Place {
        page,
        last: last_page(numbers.len()),
    };
    push_page(alloc, out, library, &Persons, shown, &paged, place)
}

/// Appends how many there are.
pub(crate) fn push_counted(
    alloc: Global,
    out: &mut Parts,
    label: Label,
    count: usize,
) -> Result<(), AllocError>
    ensures { OnOk result (out.new ≡ out.old ++ surnames.counted_parts label count) }
{
    out.push(Part::Styled(Element::P, Class::Note))?;
    out.words(alloc, label.as_str())?;
    out.number(alloc, count)?;
    out.end(Element::P)
}

/// Persons by their numbers.
struct Persons;

impl Listing<u32> for Persons {
    ghost use Rattle.html_lists.specs.Surnames.{person_at};

    ghost parts = { λ s g. person_at g };

    fn push(
        &self,
        alloc: Global,
        out: &mut Parts,
        library: &HtmlLibrary,
        item: &u32,
    ) -> Result<(), AllocError> {
        out.start(Element::Li)?;
        push_person_link(alloc, out, library, *item)?;
        out.end(Element::Li)
    }
}
