//! What is between two days in an archive that is open, as a text.

ghost use Rattle.std.specs.Prelude.{◌≡◌, false, true, IfErr, IfOk, string_bytes};
ghost use Rattle.sqlite.specs.Held.{state};
ghost use Rattle.archive_output.specs.Reading.{OnOpen, OnlyReadsAny};
ghost use Rattle.archive_state.specs.Looks.{is_stop};
ghost use Rattle.date_spans.specs.Between.{AreAll, IsBetween};
ghost use Rattle.store.specs.Archives.{HasArchive};
ghost use Rattle.store.specs.Histories.{has_broken};
ghost use Rattle.store_tables.specs.Looking.{IsFailure};
ghost use Rattle.archive_output.specs.Ends.{OnFound};
ghost use Rattle.archive_output.specs.Lines.{found_text};

use crate::lines::{numbers_text, told_text};
use crate::reading::read_refusal;
use record_text::RefusalKind;
use sqlite::Alter;
use std::alloc::Global;
use store::Archive;

/// What is between two days, counted from 1970-01-01, as a text: only numbers, or with words what is said of each. The
/// archive is not changed; an import that is open stays open. 1: memory was refused. 40: somebody else has spoilt what
/// is stored. 80: the database failed, and the archive has to be opened again.
pub(crate) fn text_of<S: Alter>(
    alloc: Global,
    archive: &mut Archive<S>,
    first: i32,
    last: i32,
    words: bool,
) -> Result<String, RefusalKind>
    requires kept { archive.old.is_lost ≡ false }
    ensures found { IfOk result (λ s. OnOpen (state S.Store archive.old.conn) (state S.Store archive.new.conn)
        (λ _ c. OnFound words first last (λ text. string_bytes s ≡ text) c)) }
    ensures unfound { IfErr result (λ kind. OnOpen (state S.Store archive.old.conn) (state S.Store archive.new.conn)
        (λ _ _. IsFailure kind)) }
    ensures stops { IfErr result (λ kind. is_stop kind ≡ true) }
    ensures lost { archive.new.is_lost ≡ has_broken result }
    ensures reads { OnlyReadsAny S.Store archive.old archive.new }
{
    if words {
        told_of(alloc, archive, first, last)
    } else {
        numbers_of(alloc, archive, first, last)
    }
}

/// Only the numbers.
fn numbers_of<S: Alter>(
    alloc: Global,
    archive: &mut Archive<S>,
    first: i32,
    last: i32,
) -> Result<String, RefusalKind>
    requires kept { archive.old.is_lost ≡ false }
    ensures found { IfOk result (λ s. OnOpen (state S.Store archive.old.conn) (state S.Store archive.new.conn)
        (λ _ c. OnFound false first last (λ text. string_bytes s ≡ text) c)) }
    ensures unfound { IfErr result (λ kind. OnOpen (state S.Store archive.old.conn) (state S.Store archive.new.conn)
        (λ _ _. IsFailure kind)) }
    ensures stops { IfErr result (λ kind. is_stop kind ≡ true) }
    ensures lost { archive.new.is_lost ≡ has_broken result }
    ensures reads { OnlyReadsAny S.Store archive.old archive.new }
{
    match found_in(alloc, archive, first, last) {
        Ok(found) => numbers_text(alloc, &found),
        Err(kind) => Err(kind),
    }
}

/// The numbers, and what is said of each.
fn told_of<S: Alter>(
    alloc: Global,
    archive: &mut Archive<S>,
    first: i32,
    last: i32,
) -> Result<String, RefusalKind>
    requires kept { archive.old.is_lost ≡ false }
    ensures found { IfOk result (λ s. OnOpen (state S.Store archive.old.conn) (state S.Store archive.new.conn)
        (λ _ c. OnFound true first last (λ text. string_bytes s ≡ text) c)) }
    ensures unfound { IfErr result (λ kind. OnOpen (state S.Store archive.old.conn) (state S.Store archive.new.conn)
        (λ _ _. IsFailure kind)) }
    ensures stops { IfErr result (λ kind. is_stop kind ≡ true) }
    ensures lost { archive.new.is_lost ≡ has_broken result }
    ensures reads { OnlyReadsAny S.Store archive.old archive.new }
{
    match found_in(alloc, archive, first, last) {
        Ok(found) => told_by(alloc, archive, &found),
        Err(kind) => Err(kind),
    }
}

/// The numbers of what is between the days, ascending.
fn found_in<S: Alter>(
    alloc: Global,
    archive: &mut Archive<S>,
    first: i32,
    last: i32,
) -> Result<Vec<u32>, RefusalKind>
    requires kept { archive.old.is_lost ≡ false }
    ensures found { IfOk result (λ found. OnOpen (state S.Store archive.old.conn) (state S.Store archive.new.conn)
        (λ society c. AreAll (IsBetween c.records first last) found.items
        × HasArchive society c (state S.Store archive.new.conn))) }
    ensures unfound { IfErr result (λ kind. OnOpen (state S.Store archive.old.conn) (state S.Store archive.new.conn)
        (λ _ _. IsFailure kind)) }
    ensures stops { IfErr result (λ kind. is_stop kind ≡ true) }
    ensures lost { archive.new.is_lost ≡ has_broken result }
    ensures reads { OnlyReadsAny S.Store archive.old archive.new }
{
    match archive.between_days(alloc, first, last) {
        Ok(found) => Ok(found),
        Err(kind) => Err(read_refusal(kind)),
    }
}

/// What is said of these numbers. The archive is read whole.
fn told_by<S: Alter>(
    alloc: Global,
    archive: &mut Archive<S>,
    found: &[u32],
) -> Result<String, RefusalKind>
    requires kept { archive.old.is_lost ≡ false }
    ensures told { IfOk result (λ s. OnOpen (state S.Store archive.old.conn) (state S.Store archive.new.conn)
        (λ _ c. string_bytes s ≡ found_text true c.records found.now)) }
    ensures untold { IfErr result (λ kind. OnOpen (state S.Store archive.old.conn) (state S.Store archive.new.conn)
        (λ _ _. IsFailure kind)) }
    ensures stops { IfErr result (λ kind. is_stop kind ≡ true) }
    ensures lost { archive.new.is_lost ≡ has_broken result }
    ensures reads { OnlyReadsAny S.Store archive.old archive.new }
{
    match archive.state(alloc) {
        Ok(state) => told_text(alloc, &state, found),
        Err(kind) => Err(read_refusal(kind)),
    }
}
