//! An archive that is open, written as a GEDCOM file.

ghost use Rattle.std.specs.Prelude.{◌≡◌, false, true, IfErr, OnOk};
ghost use Rattle.sqlite.specs.Held.{state};
ghost use Rattle.sqlite.specs.State.{HasCleanDisk};
ghost use Rattle.archive_state.specs.Looks.{is_failure};
ghost use Rattle.devices.specs.Devices.{Rose};
ghost use Rattle.record_text.specs.declared.refusal.RefusalKind.TheVariants.{Storage, WriteFailed};
ghost use Rattle.gedcom_export.specs.Ends.{IsWhole};
ghost use Rattle.store.specs.Looking.{StaysReadable};
ghost use Rattle.archive_output.specs.Exporting.{IsPart, export_text};
ghost use Rattle.archive_output.specs.Reading.{OnOpen, OnlyReads};

use crate::reading::{read_refusal, society_of};
use archive_state::State;
use devices::Device;
use gedcom_export::export_state;
use record_text::RefusalKind;
use sqlite::Alter;
use std::alloc::Global;
use std::io::Write;
use store::Archive;
use store::laws::looks_are_a_call;

/// Writes the archive, which is not changed, as a GEDCOM file under the name of its society. It is read whole first. An
/// import that is open stays open, and nothing of it is written.
///
/// At a refusal a beginning of the text may have been written. 70: it would have more than 67,108,864 bytes. 40:
/// somebody else has spoilt what is stored. 80: the database failed, and the archive has to be opened again. 95: the
/// writer failed. 1: memory was refused.
pub fn write_archive<S: Alter, W: Write + Device>(
    alloc: Global,
    archive: &mut Archive<S>,
    output: &mut W,
) -> Result<(), RefusalKind>
    requires kept { archive.old.is_lost ≡ false }
    ensures written { OnOk result (OnOpen (state S.Store archive.old.conn) (state S.Store archive.new.conn)
        (λ society c. IsWhole (W.contents output.old) (W.contents output.new) (export_text society c))) }
    ensures begun { IfErr result (λ kind. OnOpen (state S.Store archive.old.conn) (state S.Store archive.new.conn)
        (λ society c. IsPart kind (W.contents output.old) (W.contents output.new) (export_text society c))) }
    ensures writer { IfErr result (λ kind. kind ≡ WriteFailed → Rose (W.failed output.old) (W.failed output.new)) }
    ensures told { IfErr result (λ kind. kind ≡ Storage → archive.new.is_lost ≡ true) }
    ensures reads { OnlyReads S.Store archive.old archive.new }
{
    match society_of(alloc, archive) {
        Ok(society) => write_named(alloc, archive, society.as_str(), output),
        Err(kind) => Err(kind),
    }
}

/// Writes the archive of a society: it is read whole first. If it cannot be, its records may be readable all the same.
fn write_named<S: Alter, W: Write + Device>(
    alloc: Global,
    archive: &mut Archive<S>,
    society: &str,
    output: &mut W,
) -> Result<(), RefusalKind>
    requires kept { archive.old.is_lost ≡ false }
    ensures written { OnOk result (OnOpen (state S.Store archive.old.conn) (state S.Store archive.new.conn)
        (λ _ c. IsWhole (W.contents output.old) (W.contents output.new) (export_text society.now c))) }
    ensures begun { IfErr result (λ kind. OnOpen (state S.Store archive.old.conn) (state S.Store archive.new.conn)
        (λ _ c. IsPart kind (W.contents output.old) (W.contents output.new) (export_text society.now c))) }
    ensures writer { IfErr result (λ kind. kind ≡ WriteFailed → Rose (W.failed output.old) (W.failed output.new)) }
    ensures told { IfErr result (λ kind. kind ≡ Storage → archive.new.is_lost ≡ true) }
    ensures reads { OnlyReads S.Store archive.old archive.new }
{
    match archive.state(alloc) {
        Ok(state) => write_state(alloc, &state, society, output),
        // Its records may be readable all the same.
        Err(RefusalKind::BadStored) => write_by_looks(alloc, archive, society, output),
        Err(kind) => Err(read_refusal(kind)),
    }
}

/// Writes a state as the archive of a society.
fn write_state<W: Write + Device>(
    alloc: Global,
    state: &State,
    society: &str,
    output: &mut W,
) -> Result<(), RefusalKind>
    ensures written { OnOk result
        (IsWhole (W.contents output.old) (W.contents output.new) (export_text society.now state.now)) }
    ensures begun { IfErr result
        (λ kind. IsPart kind (W.contents output.old) (W.contents output.new) (export_text society.now state.now)) }
    ensures own { IfErr result (λ kind. is_failure kind ≡ false) }
    ensures writer { IfErr result (λ kind. kind ≡ WriteFailed → Rose (W.failed output.old) (W.failed output.new)) }
{
    match export_state(alloc, state, society, output) {
        Ok(()) => Ok(()),
        Err(refusal) => Err(refusal.kind),
    }
}

/// Writes the archive of a society by looks at its records only, with its import set aside.
fn write_by_looks<S: Alter, W: Write + Device>(
    alloc: Global,
    archive: &mut Archive<S>,
    society: &str,
    output: &mut W,
) -> Result<(), RefusalKind>
    requires kept { archive.old.is_lost ≡ false }
    ensures written { OnOk result (OnOpen (state S.Store archive.old.conn) (state S.Store archive.new.conn)
        (λ _ c. IsWhole (W.contents output.old) (W.contents output.new) (export_text society.now c))) }
    ensures begun { IfErr result (λ kind. OnOpen (state S.Store archive.old.conn) (state S.Store archive.new.conn)
        (λ _ c. IsPart kind (W.contents output.old) (W.contents output.new) (export_text society.now c))) }
    ensures writer { IfErr result (λ kind. kind ≡ WriteFailed → Rose (W.failed output.old) (W.failed output.new)) }
    ensures told { IfErr result (λ kind. kind ≡ Storage → archive.new.is_lost ≡ true) }
    ensures reads { OnlyReads S.Store archive.old archive.new }
{
    looks_are_a_call::<S>();
    let import = archive.set_aside();
    let outcome = write_looked(alloc, archive, society, output);
    archive.put_back(import);
    outcome
}

/// Writes the archive of a society by looks at it, of which none has failed yet.
fn write_looked<S: Alter, W: Write + Device>(
    alloc: Global,
    archive: &mut Archive<S>,
    society: &str,
    output: &mut W,
) -> Result<(), RefusalKind>
    requires quiet { archive.old.failures ≡ 0 }
    ensures written { OnOk result (OnOpen (state S.Store archive.old.conn) (state S.Store archive.new.conn)
        (λ _ c. IsWhole (W.contents output.old) (W.contents output.new) (export_text society.now c))) }
    ensures begun { IfErr result (λ kind. OnOpen (state S.Store archive.old.conn) (state S.Store archive.new.conn)
        (λ _ c. IsPart kind (W.contents output.old) (W.contents output.new) (export_text society.now c))) }
    ensures writer { IfErr result (λ kind. kind ≡ WriteFailed → Rose (W.failed output.old) (W.failed output.new)) }
    ensures told { IfErr result (λ kind. kind ≡ Storage → archive.new.is_lost ≡ true) }
    ensures stays { HasCleanDisk (state S.Store archive.new.conn)
        → StaysReadable (state S.Store archive.old.conn) archive.new.is_lost (state S.Store archive.new.conn) }
{
    match gedcom_export::export(alloc, archive, society, output) {
        Ok(()) => Ok(()),
        Err(refusal) => Err(unless_lost(archive, refusal.kind)),
    }
}

/// A refusal: 80 where a look lost the archive, and nowhere else.
fn unless_lost<S: Alter>(archive: &Archive<S>, kind: RefusalKind) -> RefusalKind
    ensures lost { archive.now.is_lost ≡ true → result ≡ Storage }
    ensures same { archive.now.is_lost ≡ false → is_failure kind ≡ false → result ≡ kind }
    ensures told { result ≡ Storage → archive.now.is_lost ≡ true }
    ensures writer { result ≡ WriteFailed → kind ≡ WriteFailed }
{
    if archive.is_lost() {
        return RefusalKind::Storage;
    }
    match kind {
        RefusalKind::Storage => RefusalKind::BadStored,
        _ => kind,
    }
}
