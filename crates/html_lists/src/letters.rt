//! The surnames of the first page, by letter.

ghost use Rattle.std.specs.Prelude.{
  ◌≡◌,
  ◌++◌,
  [],
  map,
  fold,
  IfOk,
  OnOk,
  Some,
  None,
  encode_utf8,
  string_bytes,
};
ghost use Rattle.std.specs.BTreeMap.{insert_entry};
ghost use Rattle.std.specs.Char.{to_ascii_uppercase};
ghost use Rattle.std.specs.Cmp.Lexicographic.{slice_cmp};
ghost use Rattle.std.specs.FinMap.{get};
ghost use Rattle.std.specs.Map.{values_of};
ghost use Rattle.std.specs.Ordering.{nat_cmp};
ghost use Rattle.record_kinds.specs.Model as model;
ghost use Rattle.record_text.specs.Naming.{surname_of};
ghost use Rattle.sheets.specs.Gathered.{gathered};
ghost use Rattle.html_lists.specs.Letters as letters;

use crate::label::Label;
use crate::surnames::titled;
use html_pages::HtmlLibrary;
use html_parts::{Part, Parts, Route, Words};
use html_text::Element;
use record_kinds::{Name, Record};
use record_text::{surname, surname_key};
use searching::SearchWords;
use std::alloc::{AllocError, Global};
use std::collections::BTreeMap;

/// Appends the section of the surnames of all persons: each once, under the first letter of its search key, with the
/// number of its persons. Each name of each person is looked at once.
pub(crate) fn push_surnames(
    alloc: Global,
    out: &mut Parts,
    library: &HtmlLibrary,
) -> Result<(), AllocError>
    ensures { OnOk result (out.new ≡ out.old ++ letters.surnames_parts (gathered library.now.records)) }
{
    let found = surnames_in(alloc, library)?;
    let mut list = Parts::new(alloc);
    push_all(alloc, &mut list, library, &found)?;
    out.section(alloc, Label::Surnames.as_str(), list)
}

/// The surnames of all persons by what they are ordered by.
fn surnames_in(alloc: Global, library: &HtmlLibrary) -> Result<BTreeMap<String, String>, AllocError>
    ensures { IfOk result (λ found. letters.texts found
        ≡ letters.arranged (letters.surnames_in (gathered library.now.records))) }
{
    let mut found = BTreeMap::new(alloc);
    let numbers = library.persons();
    'each: for number in numbers {
        add_person(alloc, &mut found, library, *number)?;
    }
    Ok(found)
}

fn add_person(
    alloc: Global,
    found: &mut BTreeMap<String, String>,
    library: &HtmlLibrary,
    number: u32,
) -> Result<(), AllocError>
    ensures { OnOk result (letters.texts found.new ≡ fold letters.with_surname (letters.texts found.old)
        (letters.surnames_of (get library.now.records number))) }
{
    match library.record(number) {
        Some(Record::Person(person)) => add_surnames(alloc, found, &person.names),
        _ => Ok(()),
    }
}

/// Adds the surname of each name, and an empty one where there is no name.
fn add_surnames(
    alloc: Global,
    found: &mut BTreeMap<String, String>,
    names: &[Name],
) -> Result<(), AllocError>
    ensures { OnOk result (letters.texts found.new
        ≡ fold letters.with_surname (letters.texts found.old) (letters.surnames_among names.now)) }
{
    if names.is_empty() {
        return add_surname(alloc, found, "");
    }
    add_names(alloc, found, names)
}

fn add_names(
    alloc: Global,
    found: &mut BTreeMap<String, String>,
    names: &[Name],
) -> Result<(), AllocError>
    ensures { OnOk result (letters.texts found.new ≡ fold letters.with_surname (letters.texts found.old)
        (map (λ (x : model.Name). surname_of x.text) names.now)) }
{
    'names: for name in names {
        add_name(alloc, found, name)?;
    }
    Ok(())
}

fn add_name(
    alloc: Global,
    found: &mut BTreeMap<String, String>,
    name: &Name,
) -> Result<(), AllocError>
    ensures { OnOk result (letters.texts found.new
        ≡ letters.with_surname (letters.texts found.old) (surname_of name.now.text)) }
{
    add_surname(alloc, found, surname(name.text.as_str()))
}

fn add_surname(
    alloc: Global,
    found: &mut BTreeMap<String, String>,
    surname: &str,
) -> Result<(), AllocError>
    ensures { OnOk result (letters.texts found.new
        ≡ letters.with_surname (letters.texts found.old) surname.now) }
{
    let order = order_of(alloc, surname)?;
    let text = String::from_str(alloc, surname)?;
    put(found, order, text)
}

fn put(
    found: &mut BTreeMap<String, String>,
    order: String,
    surname: String,
) -> Result<(), AllocError>
    ensures { OnOk result (letters.texts found.new ≡ insert_entry (slice_cmp nat_cmp) (letters.texts found.old)
        (string_bytes order) (string_bytes surname)) }
{
    found.insert(order, surname)?;
    Ok(())
}

/// What a surname is ordered by.
fn order_of(alloc: Global, surname: &str) -> Result<String, AllocError>
    ensures { IfOk result (λ s. string_bytes s ≡ letters.order_of surname.now) }
{
    let letter = letter_of(alloc, surname)?;
    let key = surname_key(alloc, surname)?;
    let mut order = String::new(alloc);
    order.push(placed(letter))?;
    order.push_str(key.as_str())?;
    Ok(order)
}

/// The first letter or digit of the search key of a surname; `?` without one.
fn letter_of(alloc: Global, surname: &str) -> Result<char, AllocError>
    ensures { IfOk result (λ c. c ≡ letters.letter_of surname.now) }
{
    let mut words = SearchWords::new(alloc);
    words.add(alloc, surname)?;
    Ok(words.initial().unwrap_or('?'))
}

#[tactic(auto, unfolding(crate::specs::Letters::placed))]
fn placed(letter: char) -> char
    ensures { result ≡ letters.placed letter }
{
    if letter == '?' { '\u{10FFFF}' } else { letter }
}

/// Appends these surnames, in a list for each letter.
#[tactic(auto, using(crate::proofs::Arranging::surname_after))]
fn push_all(
    alloc: Global,
    out: &mut Parts,
    library: &HtmlLibrary,
    found: &BTreeMap<String, String>,
) -> Result<(), AllocError>
    ensures { OnOk result (out.new ≡ out.old ++ letters.after_parts (gathered library.now.records) None
        (values_of (letters.texts found.now))) }
{
    let mut last = None;
    'all: for (_, surname) in found {
        let letter = letter_of(alloc, surname.as_str())?;
        push_turn(alloc, out, last, letter)?;
        push_surname(alloc, out, library, surname.as_str())?;
        last = Some(letter);
    }
    push_last(out, last)
}

/// Appends what stands before a surname of a letter, after one of another, or of that.
fn push_turn(
    alloc: Global,
    out: &mut Parts,
    last: Option<char>,
    letter: char,
) -> Result<(), AllocError>
    ensures { OnOk result (out.new ≡ out.old ++ letters.turn_parts last letter) }
{
    match last {
        None => push_begin(alloc, out, letter),
        Some(before) => {
            if before == letter {
                return Ok(());
            }
            push_end(out)?;
            push_begin(alloc, out, letter)
        }
    }
}

fn push_last(out: &mut Parts, last: Option<char>) -> Result<(), AllocError>
    ensures { OnOk result (out.new ≡ out.old ++ letters.last_parts last) }
{
    match last {
        None => Ok(()),
        Some(_) => push_end(out),
    }
}

fn push_begin(alloc: Global, out: &mut Parts, letter: char) -> Result<(), AllocError>
    ensures { OnOk result (out.new ≡ out.old ++ letters.begin_parts letter) }
{
    out.start(Element::Li)?;
    let text = capital(alloc, letter)?;
    out.push(Part::Words(Words::new(text)))?;
    out.start(Element::Ul)
}

fn push_end(out: &mut Parts) -> Result<(), AllocError>
    ensures { OnOk result (out.new ≡ out.old ++ letters.end_parts) }
{
    out.end(Element::Ul)?;
    out.end(Element::Li)
}

/// A letter as a text, one of ASCII as a capital.
fn capital(alloc: Global, letter: char) -> Result<String, AllocError>
    ensures { IfOk result (λ s. string_bytes s ≡ encode_utf8 (to_ascii_uppercase letter)) }
{
    let mut text = String::new(alloc);
    text.push(letter.to_ascii_uppercase())?;
    Ok(text)
}

/// Appends a surname with the number of its persons.
fn push_surname(
    alloc: Global,
    out: &mut Parts,
    library: &HtmlLibrary,
    surname: &str,
) -> Result<(), AllocError>
    ensures { OnOk result (out.new ≡ out.old ++ letters.surname_item (gathered library.now.records) surname.now) }
{
    let persons = library.called(alloc, surname)?;
    push_counted(alloc, out, surname, persons.len())
}

fn push_counted(
    alloc: Global,
    out: &mut Parts,
    surname: &str,
    count: usize,
) -> Result<(), AllocError>
    ensures { OnOk result (out.new ≡ out.old ++ letters.counted_item surname.now count) }
{
    out.start(Element::Li)?;
    let words = Words::of(alloc, surname)?;
    out.link(alloc, Route::Surname(words), titled(surname))?;
    out.words(alloc, ": ")?;
    out.number(alloc, count)?;
    out.end(Element::Li)
}
