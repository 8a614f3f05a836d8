//! A sheet of what is shown, of any kind.

ghost use Rattle.std.specs.Prelude.{◌≡◌, IfErr, IfOk, Ok, string_bytes};
ghost use Rattle.archive_state.specs.Sound.{IsSound};
ghost use Rattle.sheets.specs.Answers.{IsRefused};
ghost use Rattle.archive_output.specs.Sheets.{sheet_text};

use masking::Shown;
use record_text::RefusalKind;
use sheets::{Generations, family_sheet, pedigree, person_sheet, register_sheet};
use std::alloc::Global;

/// Which sheet: of what, and of which number.
#[derive(Clone, Copy, Debug, PartialEq, Eq)]
pub enum Sheet {
    /// The sheet of a person.
    Person(u32),
    /// The sheet of a family.
    Family(u32),
    /// The sheet of a register, which is a source.
    Register(u32),
    /// The pedigree of a person, of so many generations.
    Pedigree(u32, Generations),
}

/// The text of a sheet of what is shown. 50: no record that is shown has the number. 51: it is of another kind. 1:
/// memory was refused.
pub fn sheet_of(alloc: Global, shown: &Shown, sheet: &Sheet) -> Result<String, RefusalKind>
    ensures text { IsSound shown.now
        → IfOk result (λ s. sheet_text shown.now.records sheet.now ≡ Ok (string_bytes s)) }
    ensures refused { IfErr result (λ e. IsRefused e (sheet_text shown.now.records sheet.now)) }
{
    match sheet {
        Sheet::Person(number) => person_sheet(alloc, shown, *number),
        Sheet::Family(number) => family_sheet(alloc, shown, *number),
        Sheet::Register(number) => register_sheet(alloc, shown, *number),
        Sheet::Pedigree(number, generations) => pedigree(alloc, shown, *number, *generations),
    }
}
