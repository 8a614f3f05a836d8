//! What the records of an archive tell of numbers, gathered in one pass.

ghost use Rattle.std.specs.Prelude.{◌≡◌, IfOk, OnOk, Some};
ghost use Rattle.std.specs.FinMap.{get};
ghost use Rattle.record_kinds.specs.declared.record.Record.{Record};
ghost use Rattle.masking.specs.Sets.{Gets, Has};
ghost use Rattle.masking.specs.Telling.{IsTold, Telling};

use archive_state::State;
use record_kinds::Record;
use std::alloc::{AllocError, Global};
use std::collections::BTreeSet;

/// What a record tells of numbers.
pub(crate) trait Tells {
    ghost tells: { Self → Telling };

    /// Adds the numbers of which the record tells it.
    fn add_told(
        &self,
        alloc: Global,
        number: u32,
        found: &Record,
        numbers: &mut BTreeSet<u32>,
    ) -> Result<(), AllocError>
        ensures { OnOk result (Gets numbers.old numbers.new (tells self.now number found.now)) };
}

/// The numbers of which the records tell it. Each record is looked at once.
pub(crate) fn told_by_all<T: Tells>(
    alloc: Global,
    state: &State,
    teller: &T,
) -> Result<BTreeSet<u32>, AllocError>
    ensures { IfOk result (λ told. Has told (IsTold state.now.records (T.tells teller.now))) }
{
    let numbers = state.record_numbers(alloc)?;
    let mut told = BTreeSet::new(alloc);
    'numbers: for number in &numbers {
        add_at(alloc, state, *number, teller, &mut told)?;
    }
    Ok(told)
}

/// Adds what the record of a number tells, where one stands.
fn add_at<T: Tells>(
    alloc: Global,
    state: &State,
    number: u32,
    teller: &T,
    told: &mut BTreeSet<u32>,
) -> Result<(), AllocError>
    ensures { OnOk result (Gets told.old told.new
        (λ n. (r : Record) × (get state.now.records number ≡ Some r) × T.tells teller.now number r n)) }
{
    match state.record(number) {
        None => Ok(()),
        Some(found) => teller.add_told(alloc, number, found, told),
    }
}
