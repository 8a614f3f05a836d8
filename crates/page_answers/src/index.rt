//! The paths of places under their search keys.

ghost use Rattle.std.specs.Prelude.{
  ◌≡◌,
  ◌++◌,
  ◌∷◌,
  ℕ,
  List,
  [],
  IfOk,
  OnOk,
  bytes_eq,
  if◌then◌else◌,
  map,
  string_bytes,
};
ghost use Rattle.page_answers.specs.Likes.{IsIndex, like_in, paths_in, search_key, under};

use searching::SearchWords;
use std::alloc::{AllocError, Global};
use std::collections::BTreeMap;

/// The paths of places, under the key by which a search looks each up.
pub struct PlaceIndex {
    paths: BTreeMap<String, Vec<String>>,
}

// It is written out, so that no crate above proves again how a map is dropped.
impl Drop for PlaceIndex {
    fn drop(self) {
        let PlaceIndex { paths: _ } = self;
    }
}

impl PlaceIndex {
    /// No place. Takes no memory.
    pub fn new(alloc: Global) -> PlaceIndex
        ensures { IsIndex result.paths [] }
    {
        PlaceIndex {
            paths: BTreeMap::new(alloc),
        }
    }

    /// One more path, after the others.
    pub fn add(&mut self, alloc: Global, path: &str) -> Result<(), AllocError>
        ensures { OnOk result ((paths : List (List ℕ)) → IsIndex self.old.paths paths
            → IsIndex self.new.paths (paths ++ path.now ∷ [])) }
    {
        let key = key_of(alloc, path)?;
        let path = String::from_str(alloc, path)?;
        add_under(alloc, &mut self.paths, key, path)
    }

    /// The paths like this one, in the order in which they were added.
    pub fn like(&self, alloc: Global, path: &str) -> Result<&[String], AllocError>
        ensures { IfOk result (λ found. map string_bytes found.now ≡ like_in self.now path.now) }
    {
        let key = key_of(alloc, path)?;
        Ok(found(&self.paths, key.as_str()))
    }
}

/// The key by which a search looks a path up.
fn key_of(alloc: Global, path: &str) -> Result<String, AllocError>
    ensures { IfOk result (λ key. string_bytes key ≡ search_key path.now) }
{
    let mut words = SearchWords::new(alloc);
    words.add(alloc, path)?;
    words.key(alloc)
}

fn add_under(
    alloc: Global,
    paths: &mut BTreeMap<String, Vec<String>>,
    key: String,
    path: String,
) -> Result<(), AllocError>
    ensures { OnOk result ((other : List ℕ) → under paths.new other
        ≡ (if bytes_eq (string_bytes key) other then under paths.old other ++ string_bytes path ∷ []
        else under paths.old other)) }
{
    if let Some(found) = paths.get_mut(key.as_str()) {
        add_last(found, path)?;
        return Ok(());
    }
    let mut first = Vec::new(alloc);
    add_last(&mut first, path)?;
    paths.insert(key, first)?;
    Ok(())
}

fn add_last(paths: &mut Vec<String>, path: String) -> Result<(), AllocError>
    ensures { OnOk result (paths_in paths.new ≡ paths_in paths.old ++ string_bytes path ∷ []) }
{
    paths.push(path)?;
    Ok(())
}

fn found<'a>(paths: &'a BTreeMap<String, Vec<String>>, key: &str) -> &'a [String]
    ensures { map string_bytes result.now ≡ under paths.now key.now }
{
    match paths.get(key) {
        Some(found) => found,
        None => &[],
    }
}
