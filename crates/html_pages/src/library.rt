//! The masked records, with what belongs to each.

ghost use Rattle.std.specs.Prelude.{◌≡◌, IfOk, option_copied, option_map, string_bytes};
ghost use Rattle.std.specs.Prelude as list;
ghost use Rattle.std.specs.FinMap as map;
ghost use Rattle.gedcom_export.specs.Index.{IsArranged, IsIndexOf};
ghost use Rattle.gedcom_export.specs.declared.index_owned.Owned as owned;
ghost use Rattle.gedcom_export.specs.declared.membership.Membership as membership;
ghost use Rattle.sheets.specs.Gathered.{gathered};
ghost use Rattle.sheets.specs.Pedigrees as ancestors;
ghost use Rattle.html_parts.specs.Parts.{page_bytes};
ghost use Rattle.html_pages.specs.Called as called;
ghost use Rattle.html_pages.specs.Pages as pages;
ghost use Rattle.html_pages.specs.Pedigrees as tree;

use crate::called::persons_without_surname;
use crate::{families, pedigrees, persons};
use gedcom_export::{Index, Membership, Owned, Rank};
use html_parts::Words;
use masking::Shown;
use node_writing::Named;
use record_fields::Partnership;
use record_kinds::Record;
use sheet_lines::SurnameIndex;
use sheets::{Generations, ancestor_words, parent_of, surnames_of};
use std::alloc::{AllocError, Global};
use std::marker::Model;

/// A masked state with the index of its records and that of their surnames, and the persons without one, which are made
/// once for many pages. Contracts see the masked state.
pub struct HtmlLibrary {
    shown: Shown,
    index: Index,
    surnames: SurnameIndex,
    without_surname: Vec<u32>,
}

// It is written out, so that no function above proves again how each part is dropped.
impl Drop for HtmlLibrary {
    fn drop(self) {
        let HtmlLibrary {
            shown: _,
            index: _,
            surnames: _,
            without_surname: _,
        } = self;
    }
}

impl Model for HtmlLibrary {
    ghost use Rattle.std.specs.Coded.{codes, coded_ℕ, coded_list};
    ghost use Rattle.std.specs.FinMap as map;
    ghost use Rattle.stored_lines.specs.Line.{lines_code, value_code};
    ghost use Rattle.archive_state.specs.Content as content;
    ghost use Rattle.gedcom_export.specs.Index.{IsArranged, IsIndexOf};
    ghost use Rattle.std.specs.Prelude.{◌≡◌, []};
    ghost use Rattle.sheets.specs.Called.{AreCalled};
    ghost use Rattle.sheets.specs.Gathered.{gathered};
    ghost use Rattle.html_pages.specs.Called.{called};

    ghost Value = { content.Content };

    ghost coded = { Prim.hlevel (codes, map.code, lines_code, value_code) };

    ghost view = { λ a. a.shown };

    ghost invariant = { λ a. IsArranged a.index × IsIndexOf (map.entries a.shown.records) a.index
        × AreCalled a.shown.records a.surnames
        × (a.without_surname.items ≡ called (gathered a.shown.records) []) };
}

impl HtmlLibrary {
    /// A masked state with its indices. Refused only if out of memory, as are all calls.
    pub fn new(alloc: Global, shown: Shown) -> Result<HtmlLibrary, AllocError>
        ensures { IfOk result (λ l. l ≡ shown) }
    {
        let index = index_of(alloc, &shown)?;
        let surnames = surnames_of(alloc, &shown, &index)?;
        let without_surname = persons_without_surname(alloc, &shown, &index)?;
        Ok(HtmlLibrary {
            shown,
            index,
            surnames,
            without_surname,
        })
    }

    /// The page of a person. `None`: no person who is shown has the number.
    pub fn person(
        &self,
        alloc: Global,
        society: &str,
        number: u32,
    ) -> Result<Option<Words>, AllocError>
        ensures { IfOk result
            (λ page. page ≡ option_map page_bytes (pages.person_page self.now.records society.now number)) }
    {
        match self.record(number) {
            Some(Record::Person(person)) => {
                persons::page_of(alloc, self, society, number, person)
            }
            _ => Ok(None),
        }
    }

    /// The page of a family. `None`: no family that is shown has the number.
    pub fn family(
        &self,
        alloc: Global,
        society: &str,
        number: u32,
    ) -> Result<Option<Words>, AllocError>
        ensures { IfOk result
            (λ page. page ≡ option_map page_bytes (pages.family_page self.now.records society.now number)) }
    {
        match self.record(number) {
            Some(Record::Family(family)) => {
                families::page_of(alloc, self, society, number, family)
            }
            _ => Ok(None),
        }
    }

    /// The pedigree of a person, of so many generations. `None`: no person who is shown has the number.
    pub fn pedigree(
        &self,
        alloc: Global,
        society: &str,
        number: u32,
        generations: Generations,
    ) -> Result<Option<Words>, AllocError>
        ensures { IfOk result (λ page. page ≡ option_map page_bytes
            (tree.pedigree_page self.now.records society.now number generations.count)) }
    {
        match self.record(number) {
            Some(Record::Person(person)) => {
                pedigrees::page_of(alloc, self, society, number, generations.count, person)
            }
            _ => Ok(None),
        }
    }

    /// The record of a number. Takes no memory.
    pub fn record(&self, number: u32) -> Option<&Record>
        ensures { option_copied result ≡ map.get self.now.records number }
    {
        self.shown.as_state().record(number)
    }

    /// The numbers of all persons, ascending. Takes no memory.
    pub fn persons(&self) -> &[u32]
        ensures { result.now ≡ (gathered self.now.records).persons }
    {
        self.index.numbers(Rank::Persons)
    }

    /// The numbers of all families, ascending. Takes no memory.
    pub fn families(&self) -> &[u32]
        ensures { result.now ≡ (gathered self.now.records).families }
    {
        self.index.numbers(Rank::Families)
    }

    /// The numbers of all sources, ascending. Takes no memory.
    pub fn sources(&self) -> &[u32]
        ensures { result.now ≡ (gathered self.now.records).sources }
    {
        self.index.numbers(Rank::Sources)
    }

    /// The numbers of all register entries, ascending. Takes no memory.
    pub fn entries(&self) -> &[u32]
        ensures { result.now ≡ (gathered self.now.records).entries }
    {
        self.index.numbers(Rank::Entries)
    }

    /// The numbers of the events of a record, ascending.
    pub fn events_of(&self, alloc: Global, owner: u32) -> Result<Vec<u32>, AllocError>
        ensures { IfOk result (λ numbers. numbers.items ≡ (gathered self.now.records).events owner) }
    {
        numbers_of(alloc, self.index.events_of(owner))
    }

    /// The numbers of the citations of a record, ascending.
    pub fn citations_of(&self, alloc: Global, owner: u32) -> Result<Vec<u32>, AllocError>
        ensures { IfOk result (λ numbers. numbers.items ≡ (gathered self.now.records).citations owner) }
    {
        numbers_of(alloc, self.index.citations_of(owner))
    }

    /// The numbers of the families where a person is a child, ascending.
    pub fn child_in(&self, alloc: Global, person: u32) -> Result<Vec<u32>, AllocError>
        ensures { IfOk result (λ numbers. numbers.items ≡ (gathered self.now.records).child_in person) }
    {
        families_of(alloc, self.index.child_in(person))
    }

    /// The numbers of the families where a person is a partner, ascending.
    pub fn partner_in(&self, alloc: Global, person: u32) -> Result<Vec<u32>, AllocError>
        ensures { IfOk result (λ numbers. numbers.items ≡ (gathered self.now.records).partner_in person) }
    {
        families_of(alloc, self.index.partner_in(person))
    }

    /// The numbers of the persons one of whose names has a surname with the key of that one, ascending; of an empty one
    /// those of the persons without any name too.
    pub fn called(&self, alloc: Global, surname: &str) -> Result<&[u32], AllocError>
        ensures { IfOk result
            (λ numbers. numbers.now ≡ called.called (gathered self.now.records) surname.now) }
    {
        if surname.is_empty() {
            return Ok(self.without_surname.as_slice());
        }
        self.surnames.persons(alloc, surname)
    }

    /// The father or the mother of a person. Takes no memory.
    pub fn parent(&self, partnership: Partnership, person: u32) -> Option<u32>
        ensures { result ≡ ancestors.parent (gathered self.now.records) partnership person }
    {
        parent_of(self.shown.as_state(), &self.index, partnership, person)
    }

    /// The display of a person, with the dates of birth and death.
    pub fn ancestor_words(&self, alloc: Global, person: u32) -> Result<String, AllocError>
        ensures { IfOk result
            (λ s. string_bytes s ≡ ancestors.words_of (gathered self.now.records) person) }
    {
        ancestor_words(alloc, self.shown.as_state(), &self.index, person)
    }

    /// The path of a place; empty where there is none.
    pub fn path(&self, alloc: Global, place: u32) -> Result<String, AllocError>
        ensures { IfOk result (λ path. string_bytes path ≡ (gathered self.now.records).path place) }
    {
        self.index.path(alloc, place)
    }
}

/// The index of all masked records, none of which is copied.
fn index_of(alloc: Global, shown: &Shown) -> Result<Index, AllocError>
    ensures shows { IfOk result (λ index. IsIndexOf (map.entries shown.now.records) index) }
    ensures arranged { IfOk result (λ index. IsArranged index) }
{
    gedcom_export::index_of(alloc, shown.as_state())
}

fn numbers_of(alloc: Global, all: &[Owned]) -> Result<Vec<u32>, AllocError>
    ensures { IfOk result (λ numbers. numbers.items ≡ list.map (λ (o : owned.Owned). o.number) all.now) }
{
    all.iter().map(|one| one.number).collect(alloc)
}

fn families_of(alloc: Global, all: &[Membership]) -> Result<Vec<u32>, AllocError>
    ensures { IfOk result (λ numbers. numbers.items
        ≡ list.map (λ (x : membership.Membership). x.side.family) all.now) }
{
    all.iter().map(|one| one.side.family).collect(alloc)
}
