//! The places and the source of a page or a batch, looked for on an archive that is open.

ghost use Rattle.std.specs.Prelude.{◌≡◌, false, true, IfErr, List, Option, map, ℕ};
ghost use Rattle.sqlite.specs.Held.{state};
ghost use Rattle.archive_tables.specs.Ends.{OnRead};
ghost use Rattle.archive_output.specs.Reading.{OnlyReads};
ghost use Rattle.archive_state.specs.Looks.{Agrees, Looked, is_failure, is_stop};
ghost use Rattle.page_batches.specs.Looks.{looks_of};
ghost use Rattle.record_text.specs.declared.refusal.RefusalKind.TheVariants.{OutOfMemory};
ghost use Rattle.store.specs.Histories.{has_broken, is_storage};
ghost use Rattle.request_csv.specs.Batches.{number_for};
ghost use Rattle.row_references.specs.References.{kept_number};
ghost use Rattle.row_references.specs.Words.{number_in as number_of};
ghost use Rattle.archive_tables.specs.Looking.{AreLooked, IsFound, IsSourced, Looks};

use page_batches::{Places, places_on};
use page_entries::PageEntry;
use receipts::Token;
use record_text::RefusalKind;
use request_csv::BatchRows;
use row_references::{NumberWord, number_in};
use sqlite::Alter;
use std::alloc::Global;
use store::Archive;
use store::laws::looks_are_a_call;

/// Looks for the places of a page. The archive is not changed; an import that is open stays open, and nothing of it is
/// seen.
///
/// 50, 51: the number of the source is of no record, or of another than a source. 80: the database failed, and the
/// archive has to be opened again. 40: somebody else has spoilt what is stored. 1: memory was refused.
pub(crate) fn look_for_places<S: Alter>(
    alloc: Global,
    archive: &mut Archive<S>,
    token: &Token,
    source: u32,
    entries: &[PageEntry],
) -> Result<Places, RefusalKind>
    requires kept { archive.old.is_lost ≡ false }
    ensures looked { OnRead (state S.Store archive.old.conn) (state S.Store archive.new.conn)
        (λ c. AreLooked result (looks_of c token.now source entries.now)) }
    ensures lost { archive.new.is_lost ≡ has_broken result }
    ensures reads { OnlyReads S.Store archive.old archive.new }
{
    looks_are_a_call::<S>();
    let import = archive.set_aside();
    let found = places_on(alloc, archive, token, source, entries);
    archive.put_back(import);
    settled(archive.is_lost(), found)
}

/// Looks for the numbers of the tokens of rows. The archive is not changed; an import that is open stays open, and
/// nothing of it is seen. 80: the database failed, and the archive has to be opened again. 1: memory was refused.
pub(crate) fn look_for_numbers<S: Alter>(
    alloc: Global,
    archive: &mut Archive<S>,
    rows: &BatchRows,
) -> Result<Vec<Option<u32>>, RefusalKind>
    requires kept { archive.old.is_lost ≡ false }
    ensures looked { OnRead (state S.Store archive.old.conn) (state S.Store archive.new.conn)
        (λ c. IsFound result (λ found. found.items ≡ map (number_for (kept_number c)) rows.now)) }
    ensures lost { archive.new.is_lost ≡ has_broken result }
    ensures reads { OnlyReads S.Store archive.old archive.new }
{
    looks_are_a_call::<S>();
    let import = archive.set_aside();
    let found = rows.numbers(alloc, archive);
    archive.put_back(import);
    unless_lost(archive.is_lost(), found)
}

/// Looks for the number of a source that a word gives. The archive is not changed; an import that is open stays open,
/// and nothing of it is seen.
///
/// 50: nothing is stored for its token, or an answer that made nothing. 80: the database failed, and the archive has to
/// be opened again. 40: somebody else has spoilt what is stored. 1: memory was refused.
pub(crate) fn look_for_source<S: Alter>(
    alloc: Global,
    archive: &mut Archive<S>,
    word: &NumberWord,
) -> Result<u32, RefusalKind>
    requires kept { archive.old.is_lost ≡ false }
    ensures looked { OnRead (state S.Store archive.old.conn) (state S.Store archive.new.conn)
        (λ c. IsSourced result (number_of c word.now)) }
    ensures lost { archive.new.is_lost ≡ has_broken result }
    ensures reads { OnlyReads S.Store archive.old archive.new }
{
    looks_are_a_call::<S>();
    let import = archive.set_aside();
    let found = number_in(alloc, archive, word);
    archive.put_back(import);
    settled_source(archive.is_lost(), found)
}

/// The number that was found, unless the looks lost the archive: then it is 80.
fn settled_source(
    is_lost: bool,
    found: Result<Option<u32>, RefusalKind>,
) -> Result<u32, RefusalKind>
    ensures looked { (right : Option ℕ) → (is_lost ≡ false → IfErr found (λ kind. is_failure kind ≡ false))
        → Looked found (λ number. number ≡ right) → IsSourced result right }
    ensures lost { has_broken result ≡ is_lost }
{
    if is_lost {
        Err(RefusalKind::Storage)
    } else {
        unbroken_source(found)
    }
}

/// The number that looks found that did not lose the archive. 50: there is none.
fn unbroken_source(found: Result<Option<u32>, RefusalKind>) -> Result<u32, RefusalKind>
    ensures looked { (right : Option ℕ) → IfErr found (λ kind. is_failure kind ≡ false)
        → Looked found (λ number. number ≡ right) → IsSourced result right }
    ensures kept { has_broken result ≡ false }
{
    match found {
        Ok(Some(number)) => Ok(number),
        Ok(None) => Err(RefusalKind::NoSuch),
        Err(kind) => Err(unbroken(kind)),
    }
}

/// The numbers that were found, unless the looks lost the archive: then it is 80.
fn unless_lost(
    is_lost: bool,
    found: Result<Vec<Option<u32>>, RefusalKind>,
) -> Result<Vec<Option<u32>>, RefusalKind>
    ensures looked { (right : List (Option ℕ)) → (is_lost ≡ false → IfErr found (λ kind. is_failure kind ≡ false))
        → Looked found (λ numbers. numbers.items ≡ right) → IsFound result (λ numbers. numbers.items ≡ right) }
    ensures lost { has_broken result ≡ is_lost }
{
    if is_lost {
        Err(RefusalKind::Storage)
    } else {
        unbroken_numbers(found)
    }
}

/// The numbers that looks found that did not lose the archive.
fn unbroken_numbers(
    found: Result<Vec<Option<u32>>, RefusalKind>,
) -> Result<Vec<Option<u32>>, RefusalKind>
    ensures looked { (right : List (Option ℕ)) → IfErr found (λ kind. is_failure kind ≡ false)
        → Looked found (λ numbers. numbers.items ≡ right) → IsFound result (λ numbers. numbers.items ≡ right) }
    ensures kept { has_broken result ≡ false }
{
    match found {
        Ok(numbers) => Ok(numbers),
        Err(kind) => Err(unbroken(kind)),
    }
}

/// What the looks have come to, unless they lost the archive: then it is 80.
fn settled(is_lost: bool, found: Result<Places, RefusalKind>) -> Result<Places, RefusalKind>
    ensures looked { (right : Looks) → (is_lost ≡ false → IfErr found (λ kind. is_failure kind ≡ false))
        → Agrees is_stop found right → AreLooked result right }
    ensures lost { has_broken result ≡ is_lost }
{
    if is_lost {
        return Err(RefusalKind::Storage);
    }
    settled_looks(found)
}

/// What looks have come to that did not lose the archive.
fn settled_looks(found: Result<Places, RefusalKind>) -> Result<Places, RefusalKind>
    ensures looked { (right : Looks) → IfErr found (λ kind. is_failure kind ≡ false) → Agrees is_stop found right
        → AreLooked result right }
    ensures kept { has_broken result ≡ false }
{
    match found {
        Ok(places) => Ok(places),
        Err(kind) => Err(unbroken(kind)),
    }
}

/// What looks that did not lose the archive are refused with: never 80.
pub(crate) fn unbroken(kind: RefusalKind) -> RefusalKind
    ensures stops { is_stop kind ≡ true → is_failure kind ≡ false → result ≡ OutOfMemory }
    ensures same { is_stop kind ≡ false → result ≡ kind }
    ensures kept { is_storage result ≡ false }
{
    match kind {
        RefusalKind::Storage => RefusalKind::BadStored,
        kind => kind,
    }
}
