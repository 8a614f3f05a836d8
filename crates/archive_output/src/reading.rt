//! What an archive that is open is asked for.

ghost use Rattle.std.specs.Prelude.{◌≡◌, false, true, IfErr, IfOk};
ghost use Rattle.sqlite.specs.Held.{state};
ghost use Rattle.sqlite.specs.State.{HasCleanDisk};
ghost use Rattle.archive_state.specs.Looks.{is_stop};
ghost use Rattle.store.specs.Archives.{HasArchive};
ghost use Rattle.store.specs.Histories.{has_broken, is_storage};
ghost use Rattle.store_tables.specs.Calls.{Settled};
ghost use Rattle.store_tables.specs.Looking.{IsFailure};
ghost use Rattle.store_tables.specs.Rows.{Rows};
ghost use Rattle.archive_output.specs.Reading.{OnOpen, OnlyReadsAny};

use record_text::{RefusalKind, Text};
use sqlite::Alter;
use std::alloc::Global;
use store::Archive;

/// The society of an archive, which is not changed; an import that is open stays open. 1: memory was refused. 40:
/// somebody else has spoilt its row. 80: the database failed, and the archive has to be opened again.
pub fn society_of<S: Alter>(alloc: Global, archive: &mut Archive<S>) -> Result<Text, RefusalKind>
    requires kept { archive.old.is_lost ≡ false }
    ensures named { IfOk result (λ text. OnOpen (state S.Store archive.old.conn) (state S.Store archive.new.conn)
        (λ society c. (text ≡ society) × HasArchive society c (state S.Store archive.new.conn))) }
    ensures unnamed { IfErr result (λ kind. OnOpen (state S.Store archive.old.conn) (state S.Store archive.new.conn)
        (λ _ _. IsFailure kind)) }
    ensures stops { IfErr result (λ kind. is_stop kind ≡ true) }
    ensures uncounted { archive.new.failures ≡ archive.old.failures }
    ensures lost { archive.new.is_lost ≡ has_broken result }

    // Whether the tables are good or not.
    ensures unread { HasCleanDisk (state S.Store archive.new.conn) → IfErr result (λ kind. (rows : Rows)
        → Settled (state S.Store archive.old.conn) rows → IsFailure kind) }
    ensures reads { OnlyReadsAny S.Store archive.old archive.new }
{
    match archive.society(alloc) {
        Ok(society) => Ok(society),
        Err(kind) => Err(read_refusal(kind)),
    }
}

/// What a read of an archive that is not lost is refused with: 1, 40 or 80, which only the read itself says.
pub fn read_refusal(kind: RefusalKind) -> RefusalKind
    ensures stops { is_stop result ≡ true }
    ensures same { is_stop kind ≡ true → result ≡ kind }
    ensures lost { is_storage result ≡ is_storage kind }
{
    match kind {
        RefusalKind::OutOfMemory | RefusalKind::Storage => kind,
        _ => RefusalKind::BadStored,
    }
}
