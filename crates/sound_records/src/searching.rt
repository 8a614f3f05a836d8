//! The first record that breaks a part of the rule.

ghost use Rattle.std.specs.Prelude.{◌≡◌, IfOk, MatchOption};
ghost use Rattle.record_shapes.specs.Lists.{Ascends};
ghost use Rattle.sound_records.specs.Knowing.{HasAll, KnowsPaths};
ghost use Rattle.sound_records.specs.Parts as parts;

use crate::alone::broken_alone;
use crate::beside::broken_beside;
use crate::keys::first_taken;
use crate::part::{Breach, Part};
use crate::paths::Paths;
use crate::survey::paths_of;
use archive_state::State;
use record_kinds::Record;
use std::alloc::{AllocError, Global};

/// A record that breaks a part of the rule, by its number and that part. `numbers` are those of all records, and
/// ascend; `next` is what they are to be below. `may_miss`: numbers in a record may name nothing. Places whose path is
/// not within the limits come first, then the first record that breaks another part, and then entries that agree.
pub fn first_breach(
    alloc: Global,
    state: &State,
    next: u64,
    may_miss: bool,
    numbers: &[u32],
) -> Result<Option<Breach>, AllocError>
    ensures { Ascends numbers.now → HasAll numbers.now state.now.records → IfOk result (λ o. MatchOption o
        (parts.AreWhole next may_miss state.now.records) (parts.IsBreach next may_miss state.now.records)) }
{
    let survey = paths_of(alloc, state, numbers)?;
    if let Some(number) = survey.too_long {
        return Ok(Some(Breach {
            number,
            part: Part::Path,
        }));
    }
    if let Some(breach) = first_broken(alloc, state, &survey.paths, next, may_miss, numbers)? {
        return Ok(Some(breach));
    }
    match first_taken(alloc, state, numbers)? {
        Some(number) => Ok(Some(Breach {
            number,
            part: Part::Key,
        })),
        None => Ok(None),
    }
}

/// The first of the numbers whose record breaks a part that is judged record by record.
fn first_broken(
    alloc: Global,
    state: &State,
    paths: &Paths,
    next: u64,
    may_miss: bool,
    numbers: &[u32],
) -> Result<Option<Breach>, AllocError>
    ensures { KnowsPaths state.now.records paths.now → IfOk result (λ o. MatchOption o
        (parts.AllKeep next may_miss state.now.records numbers.now)
        (parts.IsBreach next may_miss state.now.records)) }
{
    'numbers: for number in numbers {
        if let Some(part) = broken_at(alloc, state, paths, next, may_miss, *number)? {
            return Ok(Some(Breach {
                number: *number,
                part,
            }));
        }
    }
    Ok(None)
}

/// The first part that the record of a number breaks, where there is one.
fn broken_at(
    alloc: Global,
    state: &State,
    paths: &Paths,
    next: u64,
    may_miss: bool,
    number: u32,
) -> Result<Option<Part>, AllocError>
    ensures { KnowsPaths state.now.records paths.now → IfOk result (λ o. MatchOption o
        (parts.KeepsAt next may_miss state.now.records number)
        (parts.BreaksAt next may_miss state.now.records number)) }
{
    match state.record(number) {
        Some(found) => broken_part(alloc, state, paths, next, may_miss, number, found),
        None => Ok(None),
    }
}

fn broken_part(
    alloc: Global,
    state: &State,
    paths: &Paths,
    next: u64,
    may_miss: bool,
    number: u32,
    record: &Record,
) -> Result<Option<Part>, AllocError>
    ensures { KnowsPaths state.now.records paths.now → IfOk result (λ o. MatchOption o
        (parts.Keeps next may_miss state.now.records number «record».now)
        (parts.Breaks next may_miss state.now.records number «record».now)) }
{
    if let Some(part) = broken_alone(alloc, next, number, record)? {
        return Ok(Some(part));
    }
    broken_beside(alloc, state, paths, may_miss, number, record)
}
