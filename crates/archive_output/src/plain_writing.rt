//! The plain archive of an archive that is open, written as a GEDCOM file.

ghost use Rattle.std.specs.Prelude.{◌≡◌, false, true, IfErr, IfOk, OnOk, string_bytes};
ghost use Rattle.std.specs.Io.KnownBytes.{Keeps};
ghost use Rattle.sqlite.specs.Held.{state};
ghost use Rattle.archive_state.specs.Looks.{is_failure};
ghost use Rattle.devices.specs.Devices.{Rose};
ghost use Rattle.gedcom_export.specs.Ends.{IsWhole};
ghost use Rattle.record_text.specs.declared.refusal.RefusalKind.TheVariants.{WriteFailed};
ghost use Rattle.store.specs.Histories.{has_broken};
ghost use Rattle.archive_output.specs.Plain.{IsPlainPart, IsPlainWhole, OnPlain};
ghost use Rattle.archive_output.specs.Reading.{OnOpen, OnlyReadsAny};

use crate::reading::{read_refusal, society_of};
use archive_state::State;
use devices::Device;
use plain_export::export_plain;
use plain_export::laws::an_archive_has_one_plain_archive;
use plain_reports::left_out_text;
use record_text::RefusalKind;
use sqlite::Alter;
use std::alloc::Global;
use std::io::Write;
use store::Archive;

/// Writes the plain archive of an archive as a GEDCOM file under the name of its society. The archive is read whole,
/// and not changed; an import that is open stays open, and nothing of it is written.
///
/// 1: memory was refused. 40: somebody else has spoilt what is stored. 80: the database failed, and the archive has to
/// be opened again. 70: the text would have more than 67,108,864 bytes, or a text in it more than 1,048,576. 95: the
/// writer failed. Nothing is written at 40 and 80; at the others a prefix of the text may be. Once it is written whole,
/// the answer is the lines of what it leaves out.
pub fn write_plain<S: Alter, W: Write + Device>(
    alloc: Global,
    archive: &mut Archive<S>,
    writer: &mut W,
) -> Result<String, RefusalKind>
    requires kept { archive.old.is_lost ≡ false }
    ensures written { IfOk result (λ left_out. OnOpen (state S.Store archive.old.conn) (state S.Store archive.new.conn)
        (λ society c. IsPlainWhole (W.contents writer.old) (W.contents writer.new) (string_bytes left_out) society c)) }
    ensures begun { IfErr result (λ kind. OnOpen (state S.Store archive.old.conn) (state S.Store archive.new.conn)
        (λ society c. IsPlainPart kind (W.contents writer.old) (W.contents writer.new) society c)) }
    ensures unread { IfErr result
        (λ kind. is_failure kind ≡ true → Keeps (W.contents writer.old) (W.contents writer.new)) }
    ensures writer { IfErr result (λ kind. kind ≡ WriteFailed → Rose (W.failed writer.old) (W.failed writer.new)) }
    ensures lost { archive.new.is_lost ≡ has_broken result }
    ensures reads { OnlyReadsAny S.Store archive.old archive.new }
{
    match society_of(alloc, archive) {
        Ok(society) => write_named(alloc, archive, society.as_str(), writer),
        Err(kind) => Err(kind),
    }
}

/// The same under a name.
fn write_named<S: Alter, W: Write + Device>(
    alloc: Global,
    archive: &mut Archive<S>,
    society: &str,
    writer: &mut W,
) -> Result<String, RefusalKind>
    requires kept { archive.old.is_lost ≡ false }
    ensures written { IfOk result (λ left_out. OnOpen (state S.Store archive.old.conn) (state S.Store archive.new.conn)
        (λ _ c. IsPlainWhole (W.contents writer.old) (W.contents writer.new) (string_bytes left_out) society.now c)) }
    ensures begun { IfErr result (λ kind. OnOpen (state S.Store archive.old.conn) (state S.Store archive.new.conn)
        (λ _ c. IsPlainPart kind (W.contents writer.old) (W.contents writer.new) society.now c)) }
    ensures unread { IfErr result
        (λ kind. is_failure kind ≡ true → Keeps (W.contents writer.old) (W.contents writer.new)) }
    ensures writer { IfErr result (λ kind. kind ≡ WriteFailed → Rose (W.failed writer.old) (W.failed writer.new)) }
    ensures lost { archive.new.is_lost ≡ has_broken result }
    ensures reads { OnlyReadsAny S.Store archive.old archive.new }
{
    match archive.state(alloc) {
        Ok(state) => write_state(alloc, &state, society, writer),
        Err(kind) => Err(read_refusal(kind)),
    }
}

/// Writes the plain archive of a state under a name, with what it leaves out.
pub(crate) fn write_state<W: Write + Device>(
    alloc: Global,
    state: &State,
    society: &str,
    writer: &mut W,
) -> Result<String, RefusalKind>
    ensures written { IfOk result (λ left_out. IsPlainWhole (W.contents writer.old) (W.contents writer.new)
        (string_bytes left_out) society.now state.now) }
    ensures begun { IfErr result
        (λ kind. IsPlainPart kind (W.contents writer.old) (W.contents writer.new) society.now state.now) }
    ensures own { IfErr result (λ kind. is_failure kind ≡ false) }
    ensures writer { IfErr result (λ kind. kind ≡ WriteFailed → Rose (W.failed writer.old) (W.failed writer.new)) }
{
    match left_out_text(alloc, state) {
        Ok(left_out) => match write_plain_text(alloc, state, society, writer) {
            Ok(()) => Ok(left_out),
            Err(kind) => Err(kind),
        },
        Err(_) => Err(RefusalKind::OutOfMemory),
    }
}

/// Writes it.
fn write_plain_text<W: Write + Device>(
    alloc: Global,
    state: &State,
    society: &str,
    writer: &mut W,
) -> Result<(), RefusalKind>
    ensures written { OnOk result
        (OnPlain society.now (IsWhole (W.contents writer.old) (W.contents writer.new)) state.now) }
    ensures begun { IfErr result
        (λ kind. IsPlainPart kind (W.contents writer.old) (W.contents writer.new) society.now state.now) }
    ensures own { IfErr result (λ kind. is_failure kind ≡ false) }
    ensures writer { IfErr result (λ kind. kind ≡ WriteFailed → Rose (W.failed writer.old) (W.failed writer.new)) }
{
    an_archive_has_one_plain_archive();
    match export_plain(alloc, state, society, writer) {
        Ok(()) => Ok(()),
        Err(refusal) => Err(refusal.kind),
    }
}
