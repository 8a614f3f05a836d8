//! The page of a person.

ghost use Rattle.std.specs.Prelude.{◌≡◌, ◌++◌, ◌∷◌, [], IfOk, OnOk, Some, option_map};
ghost use Rattle.record_kinds.specs.declared.record.Record.TheVariants as kind;
ghost use Rattle.sheet_lines.specs.Lines.{sex_line};
ghost use Rattle.sheet_lines.specs.Words as shows;
ghost use Rattle.sheets.specs.Gathered.{gathered};
ghost use Rattle.html_text.specs.declared.names.Element.TheVariants as element;
ghost use Rattle.html_parts.specs.Building.{element_parts};
ghost use Rattle.html_parts.specs.Parts.{page_bytes};
ghost use Rattle.html_parts.specs.declared.part.Part.TheVariants as part;
ghost use Rattle.html_pages.specs.Pages as pages;

use crate::events::push_owned;
use crate::families::Families;
use crate::framing::page_with;
use crate::label::Label;
use crate::library::HtmlLibrary;
use crate::listing::{Listing, push_section};
use crate::mentions::EntriesNaming;
use html_parts::{Class, Part, Parts, Route, Words};
use html_text::Element;
use record_fields::Sex;
use record_kinds::{Name, Person};
use record_text::display;
use sheet_lines::{display_of, push_sex};
use std::alloc::{AllocError, Global};

/// The page of a person.
pub(crate) fn page_of(
    alloc: Global,
    library: &HtmlLibrary,
    society: &str,
    number: u32,
    person: &Person,
) -> Result<Option<Words>, AllocError>
    ensures { IfOk result (λ page. page ≡ option_map page_bytes (pages.person_page_in society.now
        (gathered library.now.records) number (Some (kind.Person person.now)))) }
{
    let title = display_of(alloc, person)?;
    let mut main = Parts::new(alloc);
    push_person(alloc, &mut main, library, number, person)?;
    page_with(alloc, society, title.as_str(), main)
}

fn push_person(
    alloc: Global,
    out: &mut Parts,
    library: &HtmlLibrary,
    number: u32,
    person: &Person,
) -> Result<(), AllocError>
    ensures { OnOk result (out.new ≡ out.old
        ++ pages.person_parts (gathered library.now.records) number person.now) }
{
    push_own(alloc, out, library, number, person)?;
    push_owned(alloc, out, library, number)?;
    push_child_families(alloc, out, library, number)?;
    push_partner_families(alloc, out, library, number)?;
    push_entries(alloc, out, library, number)?;
    push_pedigree(alloc, out, number)
}

/// Appends what is of a person only: the first name, the number, the sex and all names.
fn push_own(
    alloc: Global,
    out: &mut Parts,
    library: &HtmlLibrary,
    number: u32,
    person: &Person,
) -> Result<(), AllocError>
    ensures { OnOk result (out.new ≡ out.old ++ pages.own_parts number person.now) }
{
    push_heading(alloc, out, person)?;
    push_note(alloc, out, number, person)?;
    push_section(
        alloc,
        out,
        library,
        Label::Names.as_str(),
        &Names,
        &person.names,
    )
}

fn push_heading(alloc: Global, out: &mut Parts, person: &Person) -> Result<(), AllocError>
    ensures { OnOk result (out.new ≡ out.old ++ element_parts element.H1 (shows.display_of person.now.names)) }
{
    let title = display_of(alloc, person)?;
    out.element(alloc, Element::H1, title.as_str())
}

fn push_note(alloc: Global, out: &mut Parts, number: u32, person: &Person) -> Result<(), AllocError>
    ensures { OnOk result (out.new ≡ out.old ++ pages.note_parts number person.now) }
{
    out.push(Part::Styled(Element::P, Class::Note))?;
    out.words(alloc, Label::Person.as_str())?;
    out.number(alloc, number as usize)?;
    out.words(alloc, ". ")?;
    push_sex_words(alloc, out, person.sex)?;
    out.end(Element::P)
}

fn push_sex_words(alloc: Global, out: &mut Parts, sex: Option<Sex>) -> Result<(), AllocError>
    ensures { OnOk result (out.new ≡ out.old ++ part.Words (sex_line sex) ∷ []) }
{
    let mut text = String::new(alloc);
    push_sex(&mut text, sex)?;
    out.push(Part::Words(Words::new(text)))
}

/// The names of a person.
struct Names;

impl Listing<Name> for Names {
    ghost use Rattle.html_pages.specs.Items.{name_item};

    ghost parts = { λ s g. name_item };

    fn push(
        &self,
        alloc: Global,
        out: &mut Parts,
        library: &HtmlLibrary,
        item: &Name,
    ) -> Result<(), AllocError> {
        let _ = library;
        let shown = display(alloc, item.text.as_str())?;
        out.element(alloc, Element::Li, shown.as_str())
    }
}

fn push_child_families(
    alloc: Global,
    out: &mut Parts,
    library: &HtmlLibrary,
    person: u32,
) -> Result<(), AllocError>
    ensures { OnOk result (out.new ≡ out.old ++ pages.child_parts (gathered library.now.records) person) }
{
    let numbers = library.child_in(alloc, person)?;
    push_section(
        alloc,
        out,
        library,
        Label::Parents.as_str(),
        &Families,
        &numbers,
    )
}

fn push_partner_families(
    alloc: Global,
    out: &mut Parts,
    library: &HtmlLibrary,
    person: u32,
) -> Result<(), AllocError>
    ensures { OnOk result (out.new ≡ out.old ++ pages.partner_parts (gathered library.now.records) person) }
{
    let numbers = library.partner_in(alloc, person)?;
    push_section(
        alloc,
        out,
        library,
        Label::OwnFamilies.as_str(),
        &Families,
        &numbers,
    )
}

/// Appends the register entries that name a person. It looks at all entries.
fn push_entries(
    alloc: Global,
    out: &mut Parts,
    library: &HtmlLibrary,
    person: u32,
) -> Result<(), AllocError>
    ensures { OnOk result (out.new ≡ out.old ++ pages.entry_parts (gathered library.now.records) person) }
{
    let naming = EntriesNaming(person);
    push_section(
        alloc,
        out,
        library,
        Label::Entries.as_str(),
        &naming,
        library.entries(),
    )
}

/// Appends the way to the ancestors.
fn push_pedigree(alloc: Global, out: &mut Parts, number: u32) -> Result<(), AllocError>
    ensures { OnOk result (out.new ≡ out.old ++ pages.pedigree_parts number) }
{
    out.start(Element::P)?;
    out.link(alloc, Route::Pedigree(number), Label::Pedigree.as_str())?;
    out.end(Element::P)
}
