//! A place that is there already.

ghost use Rattle.std.specs.Prelude.{◌≡◌, ℕ, List, Some, OnOk, bytes_eq, if◌then◌else◌, option_map};
ghost use Rattle.archive_state.specs.Content.{Content};
ghost use Rattle.archive_state.specs.Looks.{CountsFailures, Looked, OnView};
ghost use Rattle.record_text.specs.Text.{IsPlain};
ghost use Rattle.import_definitions.specs.Made.{lowest_place};
ghost use Rattle.import_definitions.specs.Numbers as numbers;
ghost use Rattle.import_numbers.specs.Settling.{Knows};
ghost use Rattle.import_numbers.specs.Views.{found_said, places_of, under};

use crate::found::{Found, first_found, where_before};
use archive_state::View;
use record_text::{RefusalKind, Text};
use std::alloc::{AllocError, Global};
use std::collections::BTreeMap;

/// The position of the first place of each path in a file.
pub type FilePlaces = BTreeMap<String, u32>;

/// What looks at an archive found: of each path that was asked for, the lowest place that has it.
#[derive(Drop)]
pub struct Looks {
    found: BTreeMap<String, Option<u32>>,
}

impl Looks {
    /// No path was asked for yet.
    pub fn new(alloc: Global) -> Looks
        ensures { (c : Content) → Knows result.found c }
    {
        Looks {
            found: BTreeMap::new(alloc),
        }
    }

    /// The place of a path, where there is one: that of the archive, else the first of the file, of those before a
    /// position or of all, else the one that was made.
    pub fn find<V: View>(
        &mut self,
        alloc: Global,
        view: &mut V,
        file: &FilePlaces,
        before: Option<u32>,
        made: Option<u32>,
        path: &str,
    ) -> Result<Option<Found>, RefusalKind>
        requires { IsPlain path.now }
        ensures finds { OnView V.is_honest V.shows V.content view.old view.new (λ c. Knows self.old.found c
            → Looked result (λ f. Knows self.new.found c
            × (option_map found_said f ≡ numbers.find (places_of c file.now) before (λ p. made) path.now))) }
        ensures counts { CountsFailures (V.failed view.old) (V.failed view.new) result }
    {
        let archive = self.in_archive(alloc, view, path)?;
        let here = where_before(before, file.get(path).copied());
        Ok(first_found(archive, here, made))
    }

    /// The lowest place of the archive with a path.
    fn in_archive<V: View>(
        &mut self,
        alloc: Global,
        view: &mut V,
        path: &str,
    ) -> Result<Option<u32>, RefusalKind>
        requires { IsPlain path.now }
        ensures finds { OnView V.is_honest V.shows V.content view.old view.new (λ c. Knows self.old.found c
            → Looked result (λ n. Knows self.new.found c × (n ≡ lowest_place c.records path.now))) }
        ensures counts { CountsFailures (V.failed view.old) (V.failed view.new) result }
    {
        match self.known(path) {
            Some(found) => Ok(found),
            None => self.look(alloc, view, path),
        }
    }

    /// What a look at a path found, where there was one.
    fn known(&self, path: &str) -> Option<Option<u32>>
        ensures { result ≡ under self.now.found path.now }
    {
        self.found.get(path).copied()
    }

    /// The same of a path that was not asked for.
    fn look<V: View>(
        &mut self,
        alloc: Global,
        view: &mut V,
        path: &str,
    ) -> Result<Option<u32>, RefusalKind>
        requires { IsPlain path.now }
        ensures finds { OnView V.is_honest V.shows V.content view.old view.new (λ c. Knows self.old.found c
            → Looked result (λ n. Knows self.new.found c × (n ≡ lowest_place c.records path.now))) }
        ensures counts { CountsFailures (V.failed view.old) (V.failed view.new) result }
    {
        let text = Text::of_words(alloc, path)?;
        let found = view.place_at(alloc, &text)?;
        self.keep(alloc, path, found)?;
        Ok(found)
    }

    fn keep(&mut self, alloc: Global, path: &str, found: Option<u32>) -> Result<(), AllocError>
        ensures { OnOk result ((q : List ℕ) → under self.new.found q
            ≡ (if bytes_eq path.now q then Some found else under self.old.found q)) }
    {
        let key = String::from_str(alloc, path)?;
        self.found.insert(key, found)?;
        Ok(())
    }
}
