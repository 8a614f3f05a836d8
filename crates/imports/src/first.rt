//! The first place of each path in a file.

ghost use Rattle.std.specs.Prelude.{◌≡◌, ◌<◌, ◌^◌, ℕ, List, IfOk, OnOk, length, map, option_map, string_bytes};
ghost use Rattle.import_definitions.specs.Views.{with_first};
ghost use Rattle.import_definitions.specs.Positions.{position_of};
ghost use Rattle.import_numbers.specs.Views.{under};
ghost use Rattle.imports.specs.Firsts.{with_path};

use import_numbers::FilePlaces;
use std::alloc::{AllocError, Global};
use std::collections::BTreeMap;

/// The position of the first place of each path, where these are the paths of the nodes of a file: none for a node that
/// is no place.
pub fn first_places(alloc: Global, paths: &[Option<String>]) -> Result<FilePlaces, AllocError>
    requires { length paths.now < 2 ^ 32 }
    ensures { IfOk result (λ places. (path : List ℕ) → under places path
        ≡ position_of path 0 (map (option_map string_bytes) paths.now)) }
{
    let mut places: FilePlaces = BTreeMap::new(alloc);
    let mut at: u32 = 0;
    for path in paths {
        add_path(alloc, &mut places, path, at)?;
        at += 1;
    }
    Ok(places)
}

/// Keeps the position of a node under its path, where it has one that none before it has.
fn add_path(
    alloc: Global,
    places: &mut FilePlaces,
    path: &Option<String>,
    at: u32,
) -> Result<(), AllocError>
    ensures { OnOk result ((q : List ℕ) → under places.new q
        ≡ with_path (under places.old) (option_map string_bytes path.now) at q) }
{
    match path {
        Some(path) => add_place(alloc, places, path.as_str(), at),
        None => Ok(()),
    }
}

/// Keeps the position of a path, where none is kept yet.
fn add_place(alloc: Global, places: &mut FilePlaces, path: &str, at: u32) -> Result<(), AllocError>
    ensures { OnOk result ((q : List ℕ) → under places.new q ≡ with_first (under places.old) path.now at q) }
{
    if !places.contains_key(path) {
        places.insert(String::from_str(alloc, path)?, at)?;
    }
    Ok(())
}
