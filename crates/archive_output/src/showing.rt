//! An archive that is open, masked for a day.

ghost use Rattle.std.specs.Prelude.{◌≡◌, ◌⊎◌, false, true, IfErr, IfOk};
ghost use Rattle.sqlite.specs.Held.{state};
ghost use Rattle.archive_state.specs.Sound.{IsSound};
ghost use Rattle.archive_state.specs.Looks.{is_stop};
ghost use Rattle.record_text.specs.declared.refusal.RefusalKind.TheVariants.{BadStored, OutOfMemory};
ghost use Rattle.store.specs.Archives.{HasArchive};
ghost use Rattle.store.specs.Histories.{has_broken};
ghost use Rattle.store_tables.specs.Looking.{IsFailure};
ghost use Rattle.archive_output.specs.Reading.{OnOpen, OnlyReadsAny};
ghost use Rattle.archive_output.specs.Showing.{IsShown, OfSound};

use crate::reading::{read_refusal, society_of};
use crate::shelf::{Shelf, shelf_with};
use archive_state::State;
use audit::sound;
use masking::{Shown, shown};
use record_text::{RefusalKind, Text};
use sqlite::Alter;
use std::alloc::Global;
use store::Archive;

/// What may be shown of an archive on a day, counted from 1970-01-01, day 0. The archive is read whole, and not
/// changed; an import that is open stays open, and nothing of it is shown. 1: memory was refused. 40: somebody else has
/// spoilt what is stored, which cannot be read or is not sound. 80: the database failed, and the archive has to be
/// opened again.
pub fn shown_of<S: Alter>(
    alloc: Global,
    archive: &mut Archive<S>,
    today: i32,
) -> Result<Shown, RefusalKind>
    requires kept { archive.old.is_lost ≡ false }
    ensures shown { IfOk result (λ s. OnOpen (state S.Store archive.old.conn) (state S.Store archive.new.conn)
        (λ society c. IsShown c today s × HasArchive society c (state S.Store archive.new.conn))) }
    ensures unshown { IfErr result (λ kind. OnOpen (state S.Store archive.old.conn) (state S.Store archive.new.conn)
        (λ _ _. IsFailure kind)) }
    ensures stops { IfErr result (λ kind. is_stop kind ≡ true) }
    ensures lost { archive.new.is_lost ≡ has_broken result }
    // Whether the tables are good or not.
    ensures sound { IfOk result (λ s. OfSound (state S.Store archive.old.conn) (state S.Store archive.new.conn)
        (λ c. IsShown c today s)) }
    ensures reads { OnlyReadsAny S.Store archive.old archive.new }
{
    match archive.state(alloc) {
        Ok(state) => masked_if_sound(alloc, &state, today),
        Err(kind) => Err(read_refusal(kind)),
    }
}

/// What may be shown of a state. 40: it is not sound, so that no rule says who of it is living. 1: memory was refused.
fn masked_if_sound(alloc: Global, state: &State, today: i32) -> Result<Shown, RefusalKind>
    ensures shown { IfOk result (λ s. IsSound state.now × IsShown state.now today s) }
    ensures refused { IfErr result (λ kind. (kind ≡ OutOfMemory) ⊎ ((kind ≡ BadStored) × ¬ (IsSound state.now))) }
{
    match sound(alloc, state) {
        Ok(true) => masked(alloc, state, today),
        Ok(false) => Err(RefusalKind::BadStored),
        Err(refusal) => Err(refusal.kind),
    }
}

/// What may be shown of a state. Refused only if out of memory.
fn masked(alloc: Global, state: &State, today: i32) -> Result<Shown, RefusalKind>
    ensures shown { IsSound state.now → IfOk result (λ s. IsShown state.now today s) }
    ensures refused { IfErr result (λ kind. kind ≡ OutOfMemory) }
{
    match shown(alloc, state, today) {
        Ok(shown) => Ok(shown),
        Err(refusal) => Err(refusal.kind),
    }
}

/// The same with the name of the society: what a reading room has. Refusals as of `shown_of`.
pub fn shelf_of<S: Alter>(
    alloc: Global,
    archive: &mut Archive<S>,
    today: i32,
) -> Result<Shelf, RefusalKind>
    requires kept { archive.old.is_lost ≡ false }
    ensures shown { IfOk result (λ l. OnOpen (state S.Store archive.old.conn) (state S.Store archive.new.conn)
        (λ society c. IsShown c today l × HasArchive society c (state S.Store archive.new.conn))) }
    ensures unshown { IfErr result (λ kind. OnOpen (state S.Store archive.old.conn) (state S.Store archive.new.conn)
        (λ _ _. IsFailure kind)) }
    ensures stops { IfErr result (λ kind. is_stop kind ≡ true) }
    ensures lost { archive.new.is_lost ≡ has_broken result }
    ensures sound { IfOk result (λ l. OfSound (state S.Store archive.old.conn) (state S.Store archive.new.conn)
        (λ c. IsShown c today l)) }
    ensures reads { OnlyReadsAny S.Store archive.old archive.new }
{
    match society_of(alloc, archive) {
        Ok(society) => shelf_named(alloc, archive, society, today),
        Err(kind) => Err(kind),
    }
}

/// The same under a name.
fn shelf_named<S: Alter>(
    alloc: Global,
    archive: &mut Archive<S>,
    society: Text,
    today: i32,
) -> Result<Shelf, RefusalKind>
    requires kept { archive.old.is_lost ≡ false }
    ensures shown { IfOk result (λ l. OnOpen (state S.Store archive.old.conn) (state S.Store archive.new.conn)
        (λ society c. IsShown c today l × HasArchive society c (state S.Store archive.new.conn))) }
    ensures unshown { IfErr result (λ kind. OnOpen (state S.Store archive.old.conn) (state S.Store archive.new.conn)
        (λ _ _. IsFailure kind)) }
    ensures stops { IfErr result (λ kind. is_stop kind ≡ true) }
    ensures lost { archive.new.is_lost ≡ has_broken result }
    ensures sound { IfOk result (λ l. OfSound (state S.Store archive.old.conn) (state S.Store archive.new.conn)
        (λ c. IsShown c today l)) }
    ensures reads { OnlyReadsAny S.Store archive.old archive.new }
{
    match shown_of(alloc, archive, today) {
        Ok(shown) => Ok(shelf_with(shown, society)),
        Err(kind) => Err(kind),
    }
}
