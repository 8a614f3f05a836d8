//! Single commits that take rows of a batch out, each at most 256 rows.

ghost use Rattle.std.specs.Prelude.{◌≡◌, ◌≤◌, ◌∷◌, [], false, true, length, OnOk};
ghost use Rattle.sqlite.specs.State.{HasCleanDisk};
ghost use Rattle.sqlite.specs.Held.{state};
ghost use Rattle.store_tables.specs.Calls.{Settled};
ghost use Rattle.store_tables.specs.Rows.{Rows, without_batch_row, without_lines_from};
ghost use Rattle.store_rows.specs.Links.{without_all_links};
ghost use Rattle.store_rows.specs.Spans.{without_all_of};
ghost use Rattle.store_rows.specs.Writing.{without_all_lines, without_record_rows};
ghost use Rattle.staging.specs.Clearing.{LeavesEither};

use record_text::RefusalKind;
use sqlite::{Alter, Connection, Error};
use store_rows::{remove_all_of, remove_lines, remove_links, remove_rows};
use store_tables::{LinkRow, batches};

/// The database failed.
#[derive(Drop)]
pub struct Failed;

impl From<Error> for Failed {
    ghost use Rattle.std.specs.Prelude.{⊤};

    ghost from_gives = { λ _ _. ⊤ };

    fn from(_error: Error) -> Failed {
        Failed
    }
}

impl From<RefusalKind> for Failed {
    ghost use Rattle.std.specs.Prelude.{⊤};

    ghost from_gives = { λ _ _. ⊤ };

    fn from(_kind: RefusalKind) -> Failed {
        Failed
    }
}

/// Takes the spans of these numbers and what they are looked for by out of tables that have spans, in one commit.
#[tactic(auto, using(crate::proofs::Commits::settles_dated))]
pub fn clear_spans<S: Alter>(conn: &mut Connection<S>, numbers: &[u32]) -> Result<(), Failed>
    requires autocommit { conn.old.in_transaction ≡ false }
    requires few { length numbers.now ≤ 128 }
    ensures done { HasCleanDisk (state S.Store conn.new) → OnOk result ((rows : Rows)
        → Settled (state S.Store conn.old) rows → rows.has_spans ≡ true
        → Settled (state S.Store conn.new) (without_all_of numbers.now rows)) }
    ensures crash { HasCleanDisk (state S.Store conn.new) → (rows : Rows) → Settled (state S.Store conn.old) rows
        → rows.has_spans ≡ true
        → LeavesEither (state S.Store conn.new) rows (without_all_of numbers.now rows) }
    ensures clean { HasCleanDisk (state S.Store conn.new) → HasCleanDisk (state S.Store conn.old) }
    ensures ended { conn.new.in_transaction ≡ false }
{
    let mut tx = conn.transaction();
    remove_all_of(&mut tx, numbers)?;
    tx.commit()?;
    Ok(())
}

/// Takes these links out of tables that have spans, in one commit.
#[tactic(auto, using(crate::proofs::Commits::settles_dated))]
pub fn clear_links<S: Alter>(conn: &mut Connection<S>, links: &[LinkRow]) -> Result<(), Failed>
    requires autocommit { conn.old.in_transaction ≡ false }
    requires few { length links.now ≤ 256 }
    ensures done { HasCleanDisk (state S.Store conn.new) → OnOk result ((rows : Rows)
        → Settled (state S.Store conn.old) rows → rows.has_spans ≡ true
        → Settled (state S.Store conn.new) (without_all_links links.now rows)) }
    ensures crash { HasCleanDisk (state S.Store conn.new) → (rows : Rows) → Settled (state S.Store conn.old) rows
        → rows.has_spans ≡ true
        → LeavesEither (state S.Store conn.new) rows (without_all_links links.now rows) }
    ensures clean { HasCleanDisk (state S.Store conn.new) → HasCleanDisk (state S.Store conn.old) }
    ensures ended { conn.new.in_transaction ≡ false }
{
    let mut tx = conn.transaction();
    remove_links(&mut tx, links)?;
    tx.commit()?;
    Ok(())
}

/// Takes the lines of these numbers out in one commit, of which each has them in one row.
#[tactic(auto, using(crate::proofs::Commits::settles))]
pub fn clear_packs<S: Alter>(conn: &mut Connection<S>, numbers: &[u32]) -> Result<(), Failed>
    requires autocommit { conn.old.in_transaction ≡ false }
    requires few { length numbers.now ≤ 256 }
    ensures done { HasCleanDisk (state S.Store conn.new) → OnOk result ((rows : Rows)
        → Settled (state S.Store conn.old) rows
        → Settled (state S.Store conn.new) (without_all_lines numbers.now rows)) }
    ensures crash { HasCleanDisk (state S.Store conn.new) → (rows : Rows) → Settled (state S.Store conn.old) rows
        → LeavesEither (state S.Store conn.new) rows (without_all_lines numbers.now rows) }
    ensures clean { HasCleanDisk (state S.Store conn.new) → HasCleanDisk (state S.Store conn.old) }
    ensures ended { conn.new.in_transaction ≡ false }
{
    let mut tx = conn.transaction();
    remove_lines(&mut tx, numbers)?;
    tx.commit()?;
    Ok(())
}

/// Takes the lines of these numbers out in one commit, of which each has a row a line. Its callers see to it that they
/// have 256 together at most.
#[tactic(auto, using(crate::proofs::Commits::settles))]
pub(crate) fn clear_lines<S: Alter>(conn: &mut Connection<S>, numbers: &[u32]) -> Result<(), Failed>
    requires autocommit { conn.old.in_transaction ≡ false }
    ensures done { HasCleanDisk (state S.Store conn.new) → OnOk result ((rows : Rows)
        → Settled (state S.Store conn.old) rows
        → Settled (state S.Store conn.new) (without_all_lines numbers.now rows)) }
    ensures crash { HasCleanDisk (state S.Store conn.new) → (rows : Rows) → Settled (state S.Store conn.old) rows
        → LeavesEither (state S.Store conn.new) rows (without_all_lines numbers.now rows) }
    ensures clean { HasCleanDisk (state S.Store conn.new) → HasCleanDisk (state S.Store conn.old) }
    ensures ended { conn.new.in_transaction ≡ false }
{
    let mut tx = conn.transaction();
    remove_lines(&mut tx, numbers)?;
    tx.commit()?;
    Ok(())
}

/// Takes the lines of a number out from a place on, in one commit. Its callers see to it that these are 256 at most.
#[tactic(auto, using(crate::proofs::Commits::settles))]
pub(crate) fn clear_lines_from<S: Alter>(
    conn: &mut Connection<S>,
    number: u32,
    place: u32,
) -> Result<(), Failed>
    requires autocommit { conn.old.in_transaction ≡ false }
    ensures done { HasCleanDisk (state S.Store conn.new) → OnOk result ((rows : Rows)
        → Settled (state S.Store conn.old) rows
        → Settled (state S.Store conn.new) (without_lines_from number place rows)) }
    ensures crash { HasCleanDisk (state S.Store conn.new) → (rows : Rows) → Settled (state S.Store conn.old) rows
        → LeavesEither (state S.Store conn.new) rows (without_lines_from number place rows) }
    ensures clean { HasCleanDisk (state S.Store conn.new) → HasCleanDisk (state S.Store conn.old) }
    ensures ended { conn.new.in_transaction ≡ false }
{
    let mut tx = conn.transaction();
    batches::delete_lines_from(&mut tx, number, place)?;
    tx.commit()?;
    Ok(())
}

/// Takes the rows of these numbers out of `record`, in one commit.
#[tactic(auto, using(crate::proofs::Commits::settles))]
pub fn clear_rows<S: Alter>(conn: &mut Connection<S>, numbers: &[u32]) -> Result<(), Failed>
    requires autocommit { conn.old.in_transaction ≡ false }
    requires few { length numbers.now ≤ 256 }
    ensures done { HasCleanDisk (state S.Store conn.new) → OnOk result ((rows : Rows)
        → Settled (state S.Store conn.old) rows
        → Settled (state S.Store conn.new) (without_record_rows numbers.now rows)) }
    ensures crash { HasCleanDisk (state S.Store conn.new) → (rows : Rows) → Settled (state S.Store conn.old) rows
        → LeavesEither (state S.Store conn.new) rows (without_record_rows numbers.now rows) }
    ensures clean { HasCleanDisk (state S.Store conn.new) → HasCleanDisk (state S.Store conn.old) }
    ensures ended { conn.new.in_transaction ≡ false }
{
    let mut tx = conn.transaction();
    remove_rows(&mut tx, numbers)?;
    tx.commit()?;
    Ok(())
}

/// Takes the row of a batch out, in one commit.
#[tactic(auto, using(crate::proofs::Commits::settles))]
pub fn clear_batch<S: Alter>(conn: &mut Connection<S>, batch: u32) -> Result<(), Failed>
    requires autocommit { conn.old.in_transaction ≡ false }
    ensures done { HasCleanDisk (state S.Store conn.new) → OnOk result ((rows : Rows)
        → Settled (state S.Store conn.old) rows
        → Settled (state S.Store conn.new) (without_batch_row batch rows)) }
    ensures crash { HasCleanDisk (state S.Store conn.new) → (rows : Rows) → Settled (state S.Store conn.old) rows
        → LeavesEither (state S.Store conn.new) rows (without_batch_row batch rows) }
    ensures clean { HasCleanDisk (state S.Store conn.new) → HasCleanDisk (state S.Store conn.old) }
    ensures ended { conn.new.in_transaction ≡ false }
{
    let mut tx = conn.transaction();
    batches::delete_batch(&mut tx, batch)?;
    tx.commit()?;
    Ok(())
}
