//! The pedigree of a person.

ghost use Rattle.std.specs.Prelude.{
  ◌≡◌,
  ◌++◌,
  ◌==◌,
  ◌/◌,
  ◌-◌,
  ◌^◌,
  ◌<◌,
  ℕ,
  IfErr,
  IfOk,
  None,
  Ok,
  OnOk,
  Some,
  get_or,
  length,
  if◌then◌else◌,
  string_bytes,
};
ghost use Rattle.std.specs.Option.{option_and_then};
ghost use Rattle.archive_state.specs.Sound.{IsSound};
ghost use Rattle.std.specs.FinMap.{entries};
ghost use Rattle.gedcom_export.specs.Index.{IsArranged, IsIndexOf};
ghost use Rattle.sheets.specs.Answers.{IsRefused};
ghost use Rattle.sheets.specs.Gathered.{Gathered, gathered};
ghost use Rattle.sheets.specs.Indexed.{indexed};
ghost use Rattle.sheets.specs.Known.{AreKnown, IsAncestor};
ghost use Rattle.sheets.specs.Pedigrees as pedigrees;

use crate::ancestors::parent_of;
use crate::gathering::index_of;
use crate::generations::Generations;
use crate::known::{Ancestor, ancestor_words, found, learn};
use archive_state::State;
use gedcom_export::Index;
use masking::Shown;
use record_fields::Partnership;
use record_kinds::Record;
use record_text::RefusalKind;
use sheet_lines::push_ancestor;
use std::alloc::{AllocError, Global};
use std::collections::BTreeMap;

/// The pedigree of a person by Ahnentafel numbers: the person is 1, the father of n is 2n, the mother 2n + 1. So many
/// generations are the numbers below 2 to that power; nobody stands at most of them. 50: no record that is shown has
/// the number. 51: it is of another kind.
pub fn pedigree(
    alloc: Global,
    shown: &Shown,
    number: u32,
    generations: Generations,
) -> Result<String, RefusalKind>
    ensures text { IsSound shown.now → IfOk result
        (λ s. pedigrees.pedigree shown.now.records number generations.count ≡ Ok (string_bytes s)) }
    ensures refused { IfErr result
        (λ e. IsRefused e (pedigrees.pedigree shown.now.records number generations.count)) }
{
    let state = shown.as_state();
    match state.record(number) {
        None => Err(RefusalKind::NoSuch),
        Some(Record::Person(_)) => {
            let index = index_of(alloc, shown)?;
            Ok(pedigree_by(alloc, shown, &index, number, generations)?)
        }
        Some(_) => Err(RefusalKind::WrongKind),
    }
}

/// The pedigree by the index of the masked records.
pub(crate) fn pedigree_by(
    alloc: Global,
    shown: &Shown,
    index: &Index,
    subject: u32,
    generations: Generations,
) -> Result<String, AllocError>
    requires { IsArranged index.now }
    ensures { IsIndexOf (entries shown.now.records) index.now → IfOk result (λ s. string_bytes s
        ≡ pedigrees.pedigree_text (gathered shown.now.records) subject generations.count) }
{
    let mut out = String::new(alloc);
    let last = last_number(generations);
    push_lines(alloc, &mut out, shown.as_state(), index, subject, last)?;
    Ok(out)
}

/// The last number of so many generations.
fn last_number(generations: Generations) -> u32
    ensures { result ≡ 2 ^ generations.count - 1 }
{
    2u32.pow(generations.count) - 1
}

/// Appends the lines of the numbers from 1 to the last.
fn push_lines(
    alloc: Global,
    out: &mut String,
    state: &State,
    index: &Index,
    subject: u32,
    last: u32,
) -> Result<(), AllocError>
    requires { IsArranged index.now }
    ensures { OnOk result (string_bytes out.new ≡ string_bytes out.old ++ pedigrees.lines_to
        (pedigrees.line_at (indexed state.now.records index.now) subject) last) }
{
    let mut known = BTreeMap::new(alloc);
    // Who stands at each number so far; nobody at 0.
    let mut people = Vec::new(alloc);
    people.push(None)?;
    'numbers: for before in 0..last {
        let person = person_at(state, index, subject, &people, &known, before + 1);
        learn_if_there(alloc, state, index, &mut known, person)?;
        push_ancestor_at(alloc, out, state, index, &known, before + 1, person)?;
        people.push(person)?;
    }
    Ok(())
}

/// Who stands at a number, by who stands at half of it. Takes no memory.
fn person_at(
    state: &State,
    index: &Index,
    subject: u32,
    people: &[Option<u32>],
    known: &BTreeMap<u32, Ancestor>,
    number: u32,
) -> Option<u32>
    requires arranged { IsArranged index.now }
    requires within { number / 2 < length people.now }
    ensures { AreKnown (indexed state.now.records index.now) known.now.entries
        → result ≡ if number == 1 then Some subject else option_and_then
        (pedigrees.parent (indexed state.now.records index.now) (pedigrees.side number))
        (get_or people.now (number / 2) None) }
{
    if number == 1 {
        return Some(subject);
    }
    match people[(number / 2) as usize] {
        None => None,
        Some(child) => parent_at(state, index, known, number, child),
    }
}

/// The father, at an even number, or the mother of a person. Takes no memory.
fn parent_at(
    state: &State,
    index: &Index,
    known: &BTreeMap<u32, Ancestor>,
    number: u32,
    child: u32,
) -> Option<u32>
    requires { IsArranged index.now }
    ensures { AreKnown (indexed state.now.records index.now) known.now.entries
        → result ≡ pedigrees.parent (indexed state.now.records index.now) (pedigrees.side number) child }
{
    match found(known, child) {
        Some(ancestor) => known_parent(ancestor, number),
        None => parent_of(state, index, side_of(number), child),
    }
}

fn known_parent(ancestor: &Ancestor, number: u32) -> Option<u32>
    ensures { (g : Gathered) (child : ℕ) → IsAncestor g child ancestor.now
        → result ≡ pedigrees.parent g (pedigrees.side number) child }
{
    match side_of(number) {
        Partnership::Husband => ancestor.father,
        Partnership::Wife => ancestor.mother,
    }
}

/// As what somebody at that number is a partner: a father has an even number, a mother an odd one.
fn side_of(number: u32) -> Partnership
    ensures { result ≡ pedigrees.side number }
{
    if number % 2 == 0 {
        Partnership::Husband
    } else {
        Partnership::Wife
    }
}

/// Looks at who stands at a number, if anybody does.
fn learn_if_there(
    alloc: Global,
    state: &State,
    index: &Index,
    known: &mut BTreeMap<u32, Ancestor>,
    person: Option<u32>,
) -> Result<(), AllocError>
    requires { IsArranged index.now }
    ensures { OnOk result (AreKnown (indexed state.now.records index.now) known.old.entries
        → AreKnown (indexed state.now.records index.now) known.new.entries) }
{
    match person {
        None => Ok(()),
        Some(person) => learn(alloc, state, index, known, person),
    }
}

/// Appends the line of who stands at a number, if anybody does.
fn push_ancestor_at(
    alloc: Global,
    out: &mut String,
    state: &State,
    index: &Index,
    known: &BTreeMap<u32, Ancestor>,
    number: u32,
    person: Option<u32>,
) -> Result<(), AllocError>
    requires { IsArranged index.now }
    ensures { OnOk result (AreKnown (indexed state.now.records index.now) known.now.entries
        → string_bytes out.new ≡ string_bytes out.old
        ++ pedigrees.ancestor_in (indexed state.now.records index.now) number person) }
{
    match person {
        None => Ok(()),
        Some(person) => push_person(alloc, out, state, index, known, number, person),
    }
}

/// Appends the line of a person. Who is not known is looked at anew.
fn push_person(
    alloc: Global,
    out: &mut String,
    state: &State,
    index: &Index,
    known: &BTreeMap<u32, Ancestor>,
    number: u32,
    person: u32,
) -> Result<(), AllocError>
    requires { IsArranged index.now }
    ensures { OnOk result (AreKnown (indexed state.now.records index.now) known.now.entries
        → string_bytes out.new ≡ string_bytes out.old
        ++ pedigrees.ancestor_in (indexed state.now.records index.now) number (Some person)) }
{
    match found(known, person) {
        Some(ancestor) => push_ancestor(out, number, ancestor.words.as_str()),
        None => {
            let words = ancestor_words(alloc, state, index, person)?;
            push_ancestor(out, number, words.as_str())
        }
    }
}
