//! The index of records that are in memory.

ghost use Rattle.std.specs.Prelude.{◌≡◌, IfOk, OnOk, option_copied};
ghost use Rattle.std.specs.FinMap as map;
ghost use Rattle.gedcom_export.specs.Adding as adding;
ghost use Rattle.gedcom_export.specs.Index.{IsArranged, IsIndexOf};

use crate::index::Index;
use archive_state::State;
use record_kinds::Record;
use std::alloc::{AllocError, Global};

/// The index of all records of a state. None of them is copied.
pub fn index_of(alloc: Global, state: &State) -> Result<Index, AllocError>
    ensures shows { IfOk result (λ index. IsIndexOf (map.entries state.now.records) index) }
    ensures arranged { IfOk result (λ index. IsArranged index) }
{
    let numbers = state.record_numbers(alloc)?;
    let mut index = index_by(alloc, state, &numbers)?;
    index.arrange()?;
    Ok(index)
}

/// What is shown by the records of these numbers.
#[tactic(auto, using(crate::proofs::Walked::one_more, crate::proofs::Walked::all_walked))]
fn index_by(alloc: Global, state: &State, numbers: &[u32]) -> Result<Index, AllocError>
    ensures { IfOk result (λ index. index ≡ adding.gathered_of (map.get state.now.records) numbers.now) }
{
    let mut index = Index::new(alloc);
    'numbers: for number in numbers {
        add_found(alloc, *number, state.record(*number), &mut index)?;
    }
    Ok(index)
}

/// Adds what is shown by a record, where there is one.
fn add_found(
    alloc: Global,
    number: u32,
    found: Option<&Record>,
    index: &mut Index,
) -> Result<(), AllocError>
    ensures { OnOk result (index.new ≡ adding.with_found number (option_copied found.entry) index.old) }
{
    match found {
        Some(record) => index.add(alloc, number, record),
        None => Ok(()),
    }
}
