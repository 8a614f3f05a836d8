//! Many sheets of one masked state.

ghost use Rattle.std.specs.Prelude.{◌≡◌, IfErr, IfOk, Ok, string_bytes};
ghost use Rattle.archive_state.specs.Sound.{IsSound};
ghost use Rattle.sheets.specs.Answers.{IsRefused};
ghost use Rattle.sheets.specs.Pages as pages;
ghost use Rattle.sheets.specs.Pedigrees as pedigrees;
ghost use Rattle.sheets.specs.Sheets as sheets;

use crate::gathering::index_of;
use crate::generations::Generations;
use crate::pages::{index_by, surname_by};
use crate::pedigrees::pedigree_by;
use crate::surnames::surnames_of;
use crate::{families, persons, registers};
use gedcom_export::Index;
use masking::Shown;
use record_kinds::Record;
use record_text::RefusalKind;
use sheet_lines::SurnameIndex;
use std::alloc::{AllocError, Global};
use std::marker::Model;

/// A masked state with the index of its records and that of their surnames, which are made once for many sheets.
/// Contracts see the masked state.
pub struct Library {
    shown: Shown,
    index: Index,
    surnames: SurnameIndex,
}

// It is written out, so that no function above proves again how each part is dropped.
impl Drop for Library {
    fn drop(self) {
        let Library {
            shown: _,
            index: _,
            surnames: _,
        } = self;
    }
}

impl Model for Library {
    ghost use Rattle.std.specs.Coded.{codes, coded_ℕ, coded_list};
    ghost use Rattle.std.specs.FinMap as map;
    ghost use Rattle.stored_lines.specs.Line.{lines_code, value_code};
    ghost use Rattle.archive_state.specs.Content as content;
    ghost use Rattle.archive_state.specs.Sound.{IsSound};
    ghost use Rattle.gedcom_export.specs.Index.{IsArranged, IsIndexOf};
    ghost use Rattle.sheets.specs.Called.{AreCalled};

    ghost Value = { content.Content };

    ghost coded = { Prim.hlevel (codes, map.code, lines_code, value_code) };

    ghost view = { λ a. a.shown };

    ghost invariant = { λ a. IsArranged a.index × (IsSound a.shown → IsIndexOf (map.entries a.shown.records) a.index)
        × (IsSound a.shown → AreCalled a.shown.records a.surnames) };
}

impl Library {
    /// A masked state with its indices. Refused only if out of memory.
    pub fn new(alloc: Global, shown: Shown) -> Result<Library, AllocError>
        ensures { IfOk result (λ l. l ≡ shown) }
    {
        let index = index_of(alloc, &shown)?;
        let surnames = surnames_of(alloc, &shown, &index)?;
        Ok(Library {
            shown,
            index,
            surnames,
        })
    }

    /// The sheet of a person, as `person_sheet` makes it.
    pub fn person(&self, alloc: Global, number: u32) -> Result<String, RefusalKind>
        ensures text { IsSound self.now
            → IfOk result (λ s. sheets.person_sheet self.now.records number ≡ Ok (string_bytes s)) }
        ensures refused { IfErr result (λ e. IsRefused e (sheets.person_sheet self.now.records number)) }
    {
        match self.shown.as_state().record(number) {
            None => Err(RefusalKind::NoSuch),
            Some(Record::Person(person)) => {
                Ok(persons::sheet_by(alloc, &self.shown, &self.index, number, person)?)
            }
            Some(_) => Err(RefusalKind::WrongKind),
        }
    }

    /// The sheet of a family, as `family_sheet` makes it.
    pub fn family(&self, alloc: Global, number: u32) -> Result<String, RefusalKind>
        ensures text { IsSound self.now
            → IfOk result (λ s. sheets.family_sheet self.now.records number ≡ Ok (string_bytes s)) }
        ensures refused { IfErr result (λ e. IsRefused e (sheets.family_sheet self.now.records number)) }
    {
        match self.shown.as_state().record(number) {
            None => Err(RefusalKind::NoSuch),
            Some(Record::Family(family)) => {
                Ok(families::sheet_by(alloc, &self.shown, &self.index, number, family)?)
            }
            Some(_) => Err(RefusalKind::WrongKind),
        }
    }

    /// The sheet of a register, as `register_sheet` makes it.
    pub fn register(&self, alloc: Global, number: u32) -> Result<String, RefusalKind>
        ensures text { IsSound self.now
            → IfOk result (λ s. sheets.register_sheet self.now.records number ≡ Ok (string_bytes s)) }
        ensures refused { IfErr result (λ e. IsRefused e (sheets.register_sheet self.now.records number)) }
    {
        match self.shown.as_state().record(number) {
            None => Err(RefusalKind::NoSuch),
            Some(Record::Source(source)) => {
                Ok(registers::sheet_by(alloc, &self.shown, &self.index, number, source)?)
            }
            Some(_) => Err(RefusalKind::WrongKind),
        }
    }

    /// The pedigree of a person, as `pedigree` makes it.
    pub fn pedigree(
        &self,
        alloc: Global,
        number: u32,
        generations: Generations,
    ) -> Result<String, RefusalKind>
        ensures text { IsSound self.now → IfOk result
            (λ s. pedigrees.pedigree self.now.records number generations.count ≡ Ok (string_bytes s)) }
        ensures refused { IfErr result
            (λ e. IsRefused e (pedigrees.pedigree self.now.records number generations.count)) }
    {
        match self.shown.as_state().record(number) {
            None => Err(RefusalKind::NoSuch),
            Some(Record::Person(_)) => {
                Ok(pedigree_by(alloc, &self.shown, &self.index, number, generations)?)
            }
            Some(_) => Err(RefusalKind::WrongKind),
        }
    }

    /// How many persons, families and registers are shown.
    pub fn index(&self, alloc: Global) -> Result<String, AllocError>
        ensures { IsSound self.now → IfOk result (λ s. string_bytes s ≡ pages.index_page self.now.records) }
    {
        index_by(alloc, &self.shown, &self.index)
    }

    /// The persons of a surname, as `surname_page` has them.
    pub fn surname(&self, alloc: Global, of: &str) -> Result<String, AllocError>
        ensures { IsSound self.now
            → IfOk result (λ s. string_bytes s ≡ pages.surname_page self.now.records of.now) }
    {
        surname_by(alloc, &self.shown, &self.surnames, of)
    }
}
