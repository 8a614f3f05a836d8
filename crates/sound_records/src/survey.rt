//! The paths of the places of a state, found one after the other.

ghost use Rattle.std.specs.Prelude.{◌≡◌, Some, IfOk, OnOk, MatchOption};
ghost use Rattle.std.specs.FinMap.{get};
ghost use Rattle.record_shapes.specs.Lists.{Ascends};
ghost use Rattle.record_shapes.specs.Fields.{path_below as below_another};
ghost use Rattle.archive_state.specs.Known.{path_under, path_with};
ghost use Rattle.sound_records.specs.Knowing.{AreWithin, HasAll, IsTooLong, KnowsPaths};
ghost use Rattle.sound_records.specs.Looks as looks;
ghost use Rattle.sound_records.specs.Looks.{IsLook};

use crate::paths::Paths;
use archive_state::State;
use field_rows::{is_below_within_limits, is_within_limits, path_below};
use record_kinds::{Place, Record};
use std::alloc::{AllocError, Global};

/// The paths of places, up to the first that is not within the limits.
#[derive(Drop)]
pub struct Survey {
    pub paths: Paths,
    /// The number of that place.
    pub too_long: Option<u32>,
}

/// What one look for a path finds.
#[derive(Drop)]
pub(crate) enum PathLook {
    Nothing,
    Path(String),
    /// The path is not within the limits.
    TooLong,
}

/// The paths of the places at these numbers, which ascend: at most 32 parts and 4,096 bytes each.
pub fn paths_of(alloc: Global, state: &State, numbers: &[u32]) -> Result<Survey, AllocError>
    ensures { Ascends numbers.now → HasAll numbers.now state.now.records → IfOk result (λ s. MatchOption s.too_long
        (KnowsPaths state.now.records s.paths × AreWithin state.now.records)
        (λ n. IsTooLong state.now.records n)) }
{
    let mut paths = Paths::new(alloc);
    'numbers: for number in numbers {
        let look = path_at(alloc, state, &paths, *number)?;
        if is_too_long(&look) {
            drop(look);
            return Ok(Survey {
                paths,
                too_long: Some(*number),
            });
        }
        keep(&mut paths, *number, look)?;
    }
    Ok(Survey {
        paths,
        too_long: None,
    })
}

fn is_too_long(look: &PathLook) -> bool
    ensures { result ≡ looks.is_too_long look.now }
{
    matches!(look, PathLook::TooLong)
}

/// Adds the path that was found.
fn keep(paths: &mut Paths, number: u32, look: PathLook) -> Result<(), AllocError>
    ensures { OnOk result (looks.Keeps paths.old paths.new number look) }
{
    match look {
        PathLook::Path(path) => paths.put(number, path),
        PathLook::Nothing | PathLook::TooLong => Ok(()),
    }
}

/// The path of the place of a number, where those of the places before it are known.
fn path_at(alloc: Global, state: &State, paths: &Paths, number: u32) -> Result<PathLook, AllocError>
    ensures { IfOk result (λ l. IsLook (path_with number (get paths.now) (get state.now.records number)) l) }
{
    match state.record(number) {
        Some(Record::Place(place)) => path_of_place(alloc, paths, number, place),
        _ => Ok(PathLook::Nothing),
    }
}

fn path_of_place(
    alloc: Global,
    paths: &Paths,
    number: u32,
    place: &Place,
) -> Result<PathLook, AllocError>
    ensures { IfOk result (λ l. IsLook (path_under number (get paths.now) place.now.name place.now.parent) l) }
{
    match place.parent {
        None => alone(alloc, place.name.as_str()),
        Some(parent) => path_within(alloc, paths, number, place.name.as_str(), parent),
    }
}

/// The path of a place of that name that is within no other.
fn alone(alloc: Global, name: &str) -> Result<PathLook, AllocError>
    ensures { IfOk result (λ l. IsLook (Some name.now) l) }
{
    if !is_within_limits(name) {
        return Ok(PathLook::TooLong);
    }
    Ok(PathLook::Path(String::from_str(alloc, name)?))
}

/// The path of a place of that number and name within another.
fn path_within(
    alloc: Global,
    paths: &Paths,
    number: u32,
    name: &str,
    parent: u32,
) -> Result<PathLook, AllocError>
    ensures { IfOk result (λ l. IsLook (path_under number (get paths.now) name.now (Some parent)) l) }
{
    if parent >= number {
        return Ok(PathLook::Nothing);
    }
    match paths.path(parent) {
        None => Ok(PathLook::Nothing),
        Some(above) => below(alloc, name, above),
    }
}

/// The path of a place of that name within one of a path.
fn below(alloc: Global, name: &str, above: &str) -> Result<PathLook, AllocError>
    ensures { IfOk result (λ l. IsLook (Some (below_another name.now above.now)) l) }
{
    if !is_below_within_limits(name, above) {
        return Ok(PathLook::TooLong);
    }
    Ok(PathLook::Path(path_below(alloc, name, above)?))
}
