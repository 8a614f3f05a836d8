//! The page of a pedigree.

ghost use Rattle.std.specs.Prelude.{◌≡◌, ◌++◌, IfOk, OnOk, Some, option_map};
ghost use Rattle.std.specs.FinMap as map;
ghost use Rattle.record_kinds.specs.declared.record.Record.TheVariants as kind;
ghost use Rattle.sheets.specs.Gathered.{gathered};
ghost use Rattle.sheets.specs.Pedigrees.{words_of};
ghost use Rattle.html_parts.specs.Parts.{page_bytes};
ghost use Rattle.html_pages.specs.Pedigrees as tree;

use crate::framing::page_with;
use crate::library::HtmlLibrary;
use html_parts::{Class, Part, Parts, Route, Words};
use html_text::Element;
use record_fields::Partnership;
use record_kinds::{Person, Record};
use sheet_lines::display_of;
use std::alloc::{AllocError, Global};

/// The page of a pedigree.
pub(crate) fn page_of(
    alloc: Global,
    library: &HtmlLibrary,
    society: &str,
    number: u32,
    generations: u32,
    person: &Person,
) -> Result<Option<Words>, AllocError>
    ensures { IfOk result (λ page. page ≡ option_map page_bytes (tree.pedigree_in society.now
        (gathered library.now.records) number generations (Some (kind.Person person.now)))) }
{
    let title = display_of(alloc, person)?;
    let mut main = Parts::new(alloc);
    push_pedigree(
        alloc,
        &mut main,
        library,
        title.as_str(),
        number,
        generations,
    )?;
    page_with(alloc, society, title.as_str(), main)
}

fn push_pedigree(
    alloc: Global,
    out: &mut Parts,
    library: &HtmlLibrary,
    title: &str,
    number: u32,
    generations: u32,
) -> Result<(), AllocError>
    ensures { OnOk result (out.new ≡ out.old
        ++ tree.titled_tree (gathered library.now.records) title.now number generations) }
{
    out.element(alloc, Element::H1, title)?;
    out.push(Part::Styled(Element::Ul, Class::Tree))?;
    push_tree(alloc, out, library, generations, Some(number))?;
    out.end(Element::Ul)
}

/// Appends a person in a box, and below it the parents.
fn push_tree(
    alloc: Global,
    out: &mut Parts,
    library: &HtmlLibrary,
    generations: u32,
    person: Option<u32>,
) -> Result<(), AllocError>
    ensures { OnOk result (out.new ≡ out.old
        ++ tree.tree generations (gathered library.now.records) person) }
{
    if generations == 0 {
        return Ok(());
    }
    let more = generations - 1;
    let Some(person) = person else {
        return Ok(());
    };
    let mut parents = Parts::new(alloc);
    let father = library.parent(Partnership::Husband, person);
    push_tree(alloc, &mut parents, library, more, father)?;
    let mother = library.parent(Partnership::Wife, person);
    push_tree(alloc, &mut parents, library, more, mother)?;
    push_boxed(alloc, out, library, person, parents)
}

/// Appends a person in a box, and below it those parts.
fn push_boxed(
    alloc: Global,
    out: &mut Parts,
    library: &HtmlLibrary,
    person: u32,
    parents: Parts,
) -> Result<(), AllocError>
    ensures { OnOk result (out.new ≡ out.old
        ++ tree.boxed (gathered library.now.records) person parents) }
{
    out.start(Element::Li)?;
    push_box(alloc, out, library, person)?;
    out.nested(parents)?;
    out.end(Element::Li)
}

fn push_box(
    alloc: Global,
    out: &mut Parts,
    library: &HtmlLibrary,
    person: u32,
) -> Result<(), AllocError>
    ensures { OnOk result (out.new ≡ out.old ++ tree.box person
        (words_of (gathered library.now.records) person) (map.get library.now.records person)) }
{
    let words = library.ancestor_words(alloc, person)?;
    match library.record(person) {
        Some(Record::Person(_)) => out.link(alloc, Route::Person(person), words.as_str()),
        _ => out.words(alloc, words.as_str()),
    }
}
