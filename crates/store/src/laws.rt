//! What holds of an archive over all runs and all stops.

ghost use Rattle.std.specs.Prelude.{◌≡◌, ◌⊎◌, ℕ, List, [], ◌++◌, Option, None, Some, Ok, false};
ghost use Rattle.std.specs.List.{Any};
ghost use Rattle.sqlite.specs.Held.{Held, state};
ghost use Rattle.sqlite.specs.State.{HasCleanDisk, IsLive, Opens};
ghost use Rattle.sqlite.specs.Tree.{Trees};
ghost use Rattle.archive_state.specs.Content.{Content};
ghost use Rattle.archive_core.specs.Machine.{Does, Done, Runs};
ghost use Rattle.archive_core.specs.declared.request.Request.{Request};
ghost use Rattle.receipts.specs.declared.answer.Answer.{Answer};
ghost use Rattle.store.specs.Archives.{HasArchive, IsArchive};
ghost use Rattle.store_rows.specs.Pasts.{HasMorePasts};
ghost use Rattle.store_tables.specs.Rows.{PastRow, Rows};
ghost use Rattle.store.specs.Adopting.{HasValuesOf, TakesUp};
ghost use Rattle.store.specs.Calls.{OnArchive, Performs, RunsOn};
ghost use Rattle.store.specs.Earlier.{HoldsArchive};
ghost use Rattle.staging.specs.Opened.{Import};
ghost use Rattle.store.specs.Histories.{in_doubt};
ghost use Rattle.store.specs.Importing.{Has};
ghost use Rattle.store.specs.Lives.{CountInAll, IsCall, IsOpenedOver, Life, LifeOn};
ghost use Rattle.store.specs.Looking.{StaysReadable};
ghost use Rattle.store.specs.Standing.{Standing};

use import_commits::laws::an_import_that_is_begun_is_in_no_view;
use sqlite::Alter;

/// However often an archive is opened, used and stopped, within a call or between two: what is found in the end is a
/// good archive of the same society, and it holds what a run of the machine makes of the first archive by all requests
/// that were answered, in their order, and of each session perhaps the one request that was in doubt when it was
/// stopped.
pub fn a_stop_loses_nothing<S: Alter>()
    ensures { (before after : Trees) (calls : List Done) (more : List (List Done)) (society : List ℕ) (c : Content)
        → Life S.Store before calls more after → IsArchive society c before
        → (found : Content) × (dones : List Done) × IsArchive society found after × CountInAll calls more dones
        × Runs c dones found }
{
    an_import_that_is_begun_is_in_no_view();
}

/// The same of an archive in tables of either version: of one of the first version the requests go on from what it is
/// anew, however often it is stopped before it was made one of the second version, or while it is. What is found in the
/// end is good tables of one of the two versions.
pub fn a_stop_loses_nothing_of_either_version<S: Alter>()
    ensures { (before after : Trees) (calls : List Done) (more : List (List Done)) (society : List ℕ) (c : Content)
        → Life S.Store before calls more after → HoldsArchive society c before
        → (found : Content) × (dones : List Done) × HoldsArchive society found after × CountInAll calls more dones
        × Runs c dones found }
{
    an_import_that_is_begun_is_in_no_view();
}

/// The same of an archive that was just made, or taken up: its first session goes on with it.
pub fn a_stop_of_an_archive_loses_nothing<S: Alter>()
    ensures { (first : Held S) (after : Trees) (calls : List Done) (more : List (List Done)) (society : List ℕ)
        (c : Content) → LifeOn S.Store first calls more after → HasArchive society c (state S.Store first)
        → (found : Content) × (dones : List Done) × IsArchive society found after × CountInAll calls more dones
        × Runs c dones found }
{
    an_import_that_is_begun_is_in_no_view();
}

/// While an import is open, the archive is that of before.
pub fn has_the_archive<S: Alter>()
    ensures { (h : Held S) (society : List ℕ) (c : Content) (o : Option (Request × Import))
        → Has society c o (state S.Store h) → HasArchive society c (state S.Store h) }
{
    an_import_that_is_begun_is_in_no_view();
}

/// A connection that was opened over tables, and shows them, has the archive that they are, in the version that they
/// have.
pub fn opened_over<S: Alter>()
    ensures { (opened : Held S) (t : Trees) → Opens (state S.Store opened) → IsLive (state S.Store opened)
        → (state S.Store opened).committed.trees ≡ t → IsOpenedOver t (state S.Store opened) }
{}

/// Calls that follow each other do what one call of all their requests does.
pub fn calls_follow_each_other<S: Alter>()
    ensures { (old between new : Held S) (first rest : List Done) → Performs (state S.Store old) first
        (state S.Store between) → in_doubt first ≡ None
        → Performs (state S.Store between) rest (state S.Store new) → Performs (state S.Store old) (first ++ rest)
        (state S.Store new) }
{}

/// Looks at an archive, one after the other, are a call of a session, which does no request: the archive stays as it
/// was, with the import that is open.
pub fn looks_are_a_call<S: Alter>()
    ensures { (old new : Held S) (was is : Standing) → was.is_lost ≡ false → is.import ≡ was.import
        → (HasCleanDisk (state S.Store new)
        → StaysReadable (state S.Store old) is.is_lost (state S.Store new)) → IsCall S.Store old was [] new is }
{
    an_import_that_is_begun_is_in_no_view();
}

/// No run of requests changes or removes a row of values of before: all that there were stay, and first.
pub fn values_of_before_are_only_added()
    ensures { (calls : List Done) (c after : Content) (rows now : Rows) → RunsOn c rows calls after now
        → (more : List PastRow) × HasMorePasts rows now more }
{}

/// An opening, which removes imports that were left open, and then a run of requests change and remove no row of values
/// of before: all that there were stay, and first.
pub fn values_of_before_outlive_an_opening<S: Alter>()
    ensures { (old taken new : Held S) (calls : List Done) → TakesUp (state S.Store old) (Ok tt) (state S.Store taken)
        → Performs (state S.Store taken) calls (state S.Store new) → in_doubt calls ≡ None
        → OnArchive (state S.Store old) (λ society c rows. HasValuesOf rows society (state S.Store new)) }
{
    values_of_before_are_only_added();
}
