//! What is judged of an archive before it is masked.

ghost use Rattle.std.specs.Prelude.{◌≡◌, IfOk};
ghost use Rattle.masking.specs.Life.{long_before};
ghost use Rattle.masking.specs.Judged.{IsJudgement, KnowsLiving};

use crate::evidence::{Deaths, OldEvents, OldFamilies};
use crate::masks::{OpenEntries, PersonsBut, Silent};
use crate::telling::told_by_all;
use archive_state::State;
use std::alloc::{AllocError, Global};
use std::collections::BTreeSet;

/// A person is taken for dead where one of their events ended that many days ago: 110 years.
const LONGEST_LIFE: i64 = 40_178;

/// Who is living in an archive, and which of its entries are open.
pub struct Judgement {
    /// The living persons.
    pub living: BTreeSet<u32>,
    /// The living persons, and the families with a living partner.
    pub silent: BTreeSet<u32>,
    /// The open entries.
    pub open_entries: BTreeSet<u32>,
}

// It is written out, so that no crate above proves again how each part is dropped.
impl Drop for Judgement {
    fn drop(self) {
        let Judgement {
            living: _,
            silent: _,
            open_entries: _,
        } = self;
    }
}

/// Who is living in an archive on a day, counted from 1970-01-01, day 0, and which of its entries are open. Each record
/// is looked at six times.
pub fn judged(alloc: Global, state: &State, today: i32) -> Result<Judgement, AllocError>
    ensures { IfOk result
        (λ j. IsJudgement state.now.records today j.living j.silent j.open_entries) }
{
    let living = living_persons(alloc, state, today)?;
    let silent = told_by_all(alloc, state, &Silent { living: &living })?;
    let entries = OpenEntries {
        today,
        living: &living,
    };
    let open_entries = told_by_all(alloc, state, &entries)?;
    Ok(Judgement {
        living,
        silent,
        open_entries,
    })
}

/// The living persons.
pub(crate) fn living_persons(
    alloc: Global,
    state: &State,
    today: i32,
) -> Result<BTreeSet<u32>, AllocError>
    ensures { IfOk result (λ living. KnowsLiving state.now.records today living) }
{
    let dead = told_by_all(alloc, state, &Deaths)?;
    let day = long_before(today);
    let old = told_by_all(alloc, state, &OldEvents { day })?;
    let partners = told_by_all(alloc, state, &OldFamilies { old: &old })?;
    let persons = PersonsBut {
        dead: &dead,
        old: &old,
        partners: &partners,
    };
    let living = told_by_all(alloc, state, &persons)?;
    Ok(living)
}

/// The last day on which an event has to have ended for its people to be taken for dead.
fn long_before(today: i32) -> i64
    ensures { result ≡ long_before today }
{
    i64::from(today) - LONGEST_LIFE
}
