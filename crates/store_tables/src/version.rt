//! Whether a store is an archive of this program.

ghost use Rattle.std.specs.Prelude.{◌≡◌, ◌≢◌, [], ◌∷◌, ⊤, true, false, IfErr, IfOk};
ghost use Rattle.sqlite.specs.Held.{state};
ghost use Rattle.sqlite.specs.State.{HasCleanDisk};
ghost use Rattle.record_text.specs.declared.refusal.RefusalKind.TheVariants as refusal;
ghost use Rattle.store_tables.specs.Calls.{LeavesAsBefore, Settled};
ghost use Rattle.store_tables.specs.Looking.{
  Looks,
  HasVersion,
  ShowsVersion,
  IsLater,
  IsRefusedRows,
  IsRefusedStore,
  version_number,
};
ghost use Rattle.store_tables.specs.Prepared.{
  PreparesAll,
  all_queries,
  drawn_queries,
  queries_of,
  history_queries,
  later_queries,
  record_queries,
};
ghost use Rattle.store_tables.specs.Reading.{IsVersion};
ghost use Rattle.store_tables.specs.Rows.{Rows};
ghost use Rattle.store_tables.specs.Shown.{shown_meta};
ghost use Rattle.store_tables.specs.Telling.{tells_no_archive};

use crate::links::SELECT_LINKS;
use crate::reading::{
    SELECT_BATCHES, SELECT_LINES, SELECT_META, SELECT_PACKS, SELECT_RECEIPTS, SELECT_RECORDS,
    SELECT_SLIP_LINES, SELECT_SLIPS, ask,
};
use crate::soughts::SELECT_SOUGHTS;
use crate::spans::SELECT_SPANS;
use record_text::RefusalKind;
use sqlite::{Alter, Connection, Error, ErrorCode, Row};
use sqlite_resolve::CompileError;

/// The version of an archive's tables.
#[derive(Clone, Copy, Debug, PartialEq, Eq)]
pub enum Version {
    /// Its dates are read by the grammar before French Republican dates, its lines have rows of their own, and it has
    /// no table of spans.
    First,
    /// The version that this program writes.
    Second,
}

/// The version of the archive in a store. `NotAnArchive`: its table `meta` or a column of it is missing, or it shows
/// none of these versions and no later one. `NewerSchema`: a later program wrote it. `OutOfMemory`: memory was
/// refused. `Storage`: the database failed.
pub fn check_version<S: Alter>(conn: &mut Connection<S>) -> Result<Version, RefusalKind>
    requires autocommit { conn.old.in_transaction ≡ false }
    ensures looks { Looks (λ rows version. rows.version ≡ version_number version) (state S.Store conn.old)
        (state S.Store conn.new) result }
    ensures version { HasCleanDisk (state S.Store conn.new)
        → IfOk result (λ version. ShowsVersion (version_number version) (state S.Store conn.old)
        (state S.Store conn.new)) }
    ensures newer { HasCleanDisk (state S.Store conn.new)
        → IfErr result (λ kind. kind ≡ refusal.NewerSchema
        → IsLater (λ v. ShowsVersion v (state S.Store conn.old) (state S.Store conn.new))) }
    ensures told { HasCleanDisk (state S.Store conn.new)
        → IfErr result (IsRefusedStore (state S.Store conn.old) (state S.Store conn.new)) }
    ensures survives { LeavesAsBefore (state S.Store conn.old) (state S.Store conn.new) }
    ensures ended { conn.new.in_transaction ≡ false }
{
    match ask(conn, SELECT_META, &[]) {
        Ok(rows) => version_of(&rows),
        Err(error) => Err(refusal_of(&error)),
    }
}

/// The version that the rows of `meta` show, where they are one.
fn version_of(rows: &[Row]) -> Result<Version, RefusalKind>
    ensures version { IfOk result (λ version. HasVersion (version_number version) rows.now) }
    ensures newer { IfErr result (λ kind. kind ≡ refusal.NewerSchema → IsLater (λ v. HasVersion v rows.now)) }
    ensures told { IfErr result (IsRefusedRows rows.now) }
    ensures known { IfErr result (λ kind. (r : Rows) → IsVersion r.version → rows.now ≡ shown_meta r ∷ []
        → kind ≡ refusal.OutOfMemory) }
{
    let [row] = rows else {
        return Err(RefusalKind::NotAnArchive);
    };
    match row.get(0) {
        Ok(1u64) => Ok(Version::First),
        Ok(2) => Ok(Version::Second),
        Ok(version) if version > 2 => Err(RefusalKind::NewerSchema),
        Err(Error::SqliteFailure(ErrorCode::OutOfMemory)) => Err(RefusalKind::OutOfMemory),
        _ => Err(RefusalKind::NotAnArchive),
    }
}

/// Whether the store has the tables of an archive of a version, each with the columns that are read. `NotAnArchive`:
/// one is missing. `Storage`: the database failed.
pub fn check_tables<S: Alter>(conn: &mut Connection<S>, version: Version) -> Result<(), RefusalKind>
    requires autocommit { conn.old.in_transaction ≡ false }
    ensures looks { (rows : Rows) → Settled (state S.Store conn.old) rows → rows.version ≡ version_number version
        → Looks (λ _ _. ⊤) (state S.Store conn.old) (state S.Store conn.new) result }
    ensures told { PreparesAll (queries_of version) (state S.Store conn.old) (state S.Store conn.new) result }
    ensures ended { conn.new.in_transaction ≡ false }
{
    prepare_all(conn)?;
    match version {
        Version::First => prepare(conn, SELECT_LINES),
        Version::Second => prepare_later(conn),
    }
}

fn prepare_all<S: Alter>(conn: &mut Connection<S>) -> Result<(), RefusalKind>
    requires autocommit { conn.old.in_transaction ≡ false }
    ensures told { PreparesAll all_queries (state S.Store conn.old) (state S.Store conn.new) result }
    ensures ended { conn.new.in_transaction ≡ false }
{
    prepare(conn, SELECT_META)?;
    prepare_records(conn)?;
    prepare_history(conn)
}

fn prepare_records<S: Alter>(conn: &mut Connection<S>) -> Result<(), RefusalKind>
    requires autocommit { conn.old.in_transaction ≡ false }
    ensures told { PreparesAll record_queries (state S.Store conn.old) (state S.Store conn.new) result }
    ensures ended { conn.new.in_transaction ≡ false }
{
    prepare(conn, SELECT_BATCHES)?;
    prepare(conn, SELECT_RECORDS)
}

fn prepare_history<S: Alter>(conn: &mut Connection<S>) -> Result<(), RefusalKind>
    requires autocommit { conn.old.in_transaction ≡ false }
    ensures told { PreparesAll history_queries (state S.Store conn.old) (state S.Store conn.new) result }
    ensures ended { conn.new.in_transaction ≡ false }
{
    prepare(conn, SELECT_RECEIPTS)?;
    prepare(conn, SELECT_SLIPS)?;
    prepare(conn, SELECT_SLIP_LINES)
}

fn prepare_later<S: Alter>(conn: &mut Connection<S>) -> Result<(), RefusalKind>
    requires autocommit { conn.old.in_transaction ≡ false }
    ensures told { PreparesAll later_queries (state S.Store conn.old) (state S.Store conn.new) result }
    ensures ended { conn.new.in_transaction ≡ false }
{
    prepare(conn, SELECT_PACKS)?;
    prepare_drawn(conn)
}

fn prepare_drawn<S: Alter>(conn: &mut Connection<S>) -> Result<(), RefusalKind>
    requires autocommit { conn.old.in_transaction ≡ false }
    ensures told { PreparesAll drawn_queries (state S.Store conn.old) (state S.Store conn.new) result }
    ensures ended { conn.new.in_transaction ≡ false }
{
    prepare(conn, SELECT_SPANS)?;
    prepare(conn, SELECT_LINKS)?;
    prepare(conn, SELECT_SOUGHTS)
}

/// Whether a query can be prepared.
fn prepare<S: Alter>(conn: &mut Connection<S>, sql: &str) -> Result<(), RefusalKind>
    requires autocommit { conn.old.in_transaction ≡ false }
    ensures told { PreparesAll (sql.now ∷ []) (state S.Store conn.old) (state S.Store conn.new) result }
    ensures ended { conn.new.in_transaction ≡ false }
{
    match conn.prepare(sql) {
        Ok(_) => Ok(()),
        Err(error) => Err(refusal_of(&error)),
    }
}

/// What an error of a query says of the store.
fn refusal_of(error: &Error) -> RefusalKind
    ensures known { tells_no_archive error.now ≡ false → result ≡ refusal.Storage }
    ensures told { tells_no_archive error.now ≡ true → result ≡ refusal.NotAnArchive }
    ensures named { result ≢ refusal.NewerSchema }
{
    match error {
        Error::SqlInputError(CompileError::NoSuchTable | CompileError::NoSuchColumn) => {
            RefusalKind::NotAnArchive
        }
        _ => RefusalKind::Storage,
    }
}
