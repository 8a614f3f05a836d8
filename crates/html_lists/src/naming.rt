//! The names by which records are found, folded once for many searches. `searching` has the same names of a record
//! that is listed.

ghost use Rattle.std.specs.Prelude.{◌≡◌, ◌++◌, ◌∷◌, [], IfOk, OnOk, map, chars};
ghost use Rattle.std.specs.FinMap.{get};
ghost use Rattle.record_kinds.specs.Model as model;
ghost use Rattle.searching.specs.Folding.{folded_name, folded_text};
ghost use Rattle.searching.specs.Wanted as wants;
ghost use Rattle.sheets.specs.Gathered.{gathered};
ghost use Rattle.html_lists.specs.Indexed.{indexed, named, names_at as names_there};

use html_pages::HtmlLibrary;
use name_index::NameIndex;
use record_kinds::{Mention, Name, Record};
use record_text::Text;
use searching::SearchText;
use std::alloc::{AllocError, Global};

/// The persons, the sources and the register entries with their names, each by number.
pub(crate) fn index_of(alloc: Global, library: &HtmlLibrary) -> Result<NameIndex, AllocError>
    ensures { IfOk result (λ index. index ≡ indexed (gathered library.now.records)) }
{
    let mut index = NameIndex::new(alloc);
    add_all(alloc, &mut index, library, library.persons())?;
    add_all(alloc, &mut index, library, library.sources())?;
    add_all(alloc, &mut index, library, library.entries())?;
    Ok(index)
}

/// Puts these records after the others.
fn add_all(
    alloc: Global,
    index: &mut NameIndex,
    library: &HtmlLibrary,
    numbers: &[u32],
) -> Result<(), AllocError>
    ensures { OnOk result (index.new ≡ index.old ++ named (gathered library.now.records) numbers.now) }
{
    'all: for number in numbers {
        add_at(alloc, index, library, *number)?;
    }
    Ok(())
}

fn add_at(
    alloc: Global,
    index: &mut NameIndex,
    library: &HtmlLibrary,
    number: u32,
) -> Result<(), AllocError>
    ensures { OnOk result (index.new
        ≡ index.old ++ (number, names_there (get library.now.records number)) ∷ []) }
{
    let names = names_at(alloc, library, number)?;
    index.add(number, names)
}

/// The names of the record of a number; none where there is no record.
fn names_at(
    alloc: Global,
    library: &HtmlLibrary,
    number: u32,
) -> Result<Vec<SearchText>, AllocError>
    ensures { IfOk result (λ names. names.items ≡ names_there (get library.now.records number)) }
{
    match library.record(number) {
        None => Ok(Vec::new(alloc)),
        Some(record) => names_of(alloc, record),
    }
}

/// The names by which a record is found.
fn names_of(alloc: Global, record: &Record) -> Result<Vec<SearchText>, AllocError>
    ensures { IfOk result (λ names. names.items ≡ wants.names_of «record».now) }
{
    match record {
        Record::Person(person) => of_names(alloc, &person.names),
        Record::Entry(entry) => of_mentions(alloc, &entry.mentions),
        Record::Place(place) => of_text(alloc, place.name.as_str()),
        Record::Repo(repo) => of_option(alloc, &repo.name),
        Record::Source(source) => of_option(alloc, &source.title),
        _ => Ok(Vec::new(alloc)),
    }
}

fn of_names(alloc: Global, names: &[Name]) -> Result<Vec<SearchText>, AllocError>
    ensures { IfOk result (λ texts. texts.items
        ≡ map (λ (x : model.Name). folded_name (chars x.text)) names.now) }
{
    let mut texts = Vec::with_capacity(alloc, names.len())?;
    'each: for name in names {
        texts.push(SearchText::of_name(alloc, name.text.as_str())?)?;
    }
    Ok(texts)
}

fn of_mentions(alloc: Global, mentions: &[Mention]) -> Result<Vec<SearchText>, AllocError>
    ensures { IfOk result (λ texts. texts.items
        ≡ map (λ (x : model.Mention). folded_name (chars x.name)) mentions.now) }
{
    let mut texts = Vec::with_capacity(alloc, mentions.len())?;
    'each: for mention in mentions {
        texts.push(SearchText::of_name(alloc, mention.name.as_str())?)?;
    }
    Ok(texts)
}

fn of_option(alloc: Global, text: &Option<Text>) -> Result<Vec<SearchText>, AllocError>
    ensures { IfOk result (λ texts. texts.items ≡ wants.folded_option text.now) }
{
    match text {
        None => Ok(Vec::new(alloc)),
        Some(text) => of_text(alloc, text.as_str()),
    }
}

fn of_text(alloc: Global, text: &str) -> Result<Vec<SearchText>, AllocError>
    ensures { IfOk result (λ texts. texts.items ≡ folded_text (chars text.now) ∷ []) }
{
    let mut texts = Vec::with_capacity(alloc, 1)?;
    texts.push(SearchText::of_text(alloc, text)?)?;
    Ok(texts)
}
