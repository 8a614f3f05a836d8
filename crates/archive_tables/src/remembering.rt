//! The history of a number of an archive that is open, written.

ghost use Rattle.std.specs.Prelude.{◌≡◌, ◌≢◌, ◌⊎◌, false, true, IfErr};
ghost use Rattle.std.specs.Io.KnownBytes.{Keeps};
ghost use Rattle.sqlite.specs.Held.{state};
ghost use Rattle.archive_output.specs.Reading.{OnlyReads};
ghost use Rattle.archive_state.specs.Looks.{is_failure};
ghost use Rattle.devices.specs.Devices.{Rose};
ghost use Rattle.histories.specs.History.{history};
ghost use Rattle.record_text.specs.declared.refusal.RefusalKind.TheVariants.{BadStored, WriteFailed};
ghost use Rattle.store.specs.Histories.{has_broken, is_storage};
ghost use Rattle.store_tables.specs.Looking.{IsFailure};
ghost use Rattle.archive_tables.specs.Ends.{EndsWriting, OnRead, OnRows};
ghost use Rattle.archive_tables.specs.Remembering.{EndsHistory};

use crate::writing::write_found;
use devices::Device;
use histories::history;
use past_values::PastValue;
use record_text::RefusalKind;
use sqlite::Alter;
use std::alloc::Global;
use std::io::Write;
use store::Archive;
use store::laws::looks_are_a_call;

/// Writes what a number was before, by the values of before of its rows, and what it is now; then rows that put the
/// last value back. The archive is not changed; an import that is open stays open, and nothing of it is written.
///
/// 50: there is no value, before or now. 40: a row of values of before of this number cannot be read, or somebody else
/// has spoilt what is stored. 80: the database failed, and the archive has to be opened again. At these nothing is
/// written. 95: the output failed. 1: memory was refused. At these a beginning of the text may have been written.
pub fn write_history<S: Alter, W: Write + Device>(
    alloc: Global,
    archive: &mut Archive<S>,
    number: u32,
    writer: &mut W,
) -> Result<(), RefusalKind>
    requires kept { archive.old.is_lost ≡ false }
    ensures ended { OnRows (state S.Store archive.old.conn) (state S.Store archive.new.conn)
        (EndsHistory result (W.contents writer.old) (W.contents writer.new) number) }
    ensures unread { IfErr result
        (λ kind. is_failure kind ≡ true → Keeps (W.contents writer.old) (W.contents writer.new)) }
    ensures writer { IfErr result (λ kind. kind ≡ WriteFailed → Rose (W.failed writer.old) (W.failed writer.new)) }
    ensures lost { archive.new.is_lost ≡ has_broken result }
    ensures reads { OnlyReads S.Store archive.old archive.new }
{
    match archive.recall(alloc, number) {
        Err(kind) => Err(unrecalled(kind)),
        Ok(found) => write_values(alloc, archive, found.answers, number, &found.values, writer),
    }
}

/// What values of before that could not be read are refused with: 1, 80 or 40.
fn unrecalled(kind: RefusalKind) -> RefusalKind
    ensures same { IsFailure kind ⊎ (kind ≡ BadStored) → result ≡ kind }
    ensures lost { is_storage result ≡ is_storage kind }
    ensures own { result ≢ WriteFailed }
{
    match kind {
        RefusalKind::OutOfMemory => RefusalKind::OutOfMemory,
        RefusalKind::Storage => RefusalKind::Storage,
        _ => RefusalKind::BadStored,
    }
}

/// Writes the history of a number by these values of before, where so many answers are kept.
fn write_values<S: Alter, W: Write + Device>(
    alloc: Global,
    archive: &mut Archive<S>,
    answers: usize,
    number: u32,
    values: &[PastValue],
    writer: &mut W,
) -> Result<(), RefusalKind>
    requires kept { archive.old.is_lost ≡ false }
    ensures ended { OnRead (state S.Store archive.old.conn) (state S.Store archive.new.conn)
        (λ c. EndsWriting result (W.contents writer.old) (W.contents writer.new)
        (history answers c.records number values.now)) }
    ensures unread { IfErr result
        (λ kind. is_failure kind ≡ true → Keeps (W.contents writer.old) (W.contents writer.new)) }
    ensures writer { IfErr result (λ kind. kind ≡ WriteFailed → Rose (W.failed writer.old) (W.failed writer.new)) }
    ensures lost { archive.new.is_lost ≡ has_broken result }
    ensures reads { OnlyReads S.Store archive.old archive.new }
{
    looks_are_a_call::<S>();
    let import = archive.set_aside();
    let text = history(alloc, archive, answers, number, values);
    archive.put_back(import);
    write_found(archive.is_lost(), text, writer)
}
