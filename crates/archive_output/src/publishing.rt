//! What is shown of an archive that is open, written as a GEDCOM file.

ghost use Rattle.std.specs.Prelude.{◌≡◌, ◌⊎◌, ℕ, List, false, true, IfErr, OnOk};
ghost use Rattle.std.specs.Io.KnownBytes.{Keeps};
ghost use Rattle.sqlite.specs.Held.{state};
ghost use Rattle.archive_state.specs.Sound.{IsSound};
ghost use Rattle.archive_state.specs.Looks.{is_failure};
ghost use Rattle.devices.specs.Devices.{Rose};
ghost use Rattle.gedcom_export.specs.Ends.{IsWhole};
ghost use Rattle.record_text.specs.declared.refusal.RefusalKind.TheVariants.{WriteFailed};
ghost use Rattle.store.specs.Histories.{has_broken};
ghost use Rattle.archive_output.specs.Exporting.{export_text};
ghost use Rattle.archive_output.specs.Reading.{OnOpen, OnlyReadsAny};
ghost use Rattle.archive_output.specs.Showing.{OfSound};
ghost use Rattle.archive_output.specs.Writing.{IsCut, IsNotBegun, IsPartPublished, IsPublished};

use crate::public_writing::public_export;
use crate::reading::society_of;
use crate::showing::shown_of;
use devices::Device;
use masking::Shown;
use record_text::RefusalKind;
use sqlite::Alter;
use std::alloc::Global;
use std::io::Write;
use store::Archive;

/// Writes what is shown of an archive on a day as a GEDCOM file under the name of its society. The archive is read
/// whole, and not changed; an import that is open stays open.
///
/// 1: memory was refused. 40: somebody else has spoilt what is stored, which cannot be read or is not sound. 80: the
/// database failed, and the archive has to be opened again. 70: the text would have more than 67,108,864 bytes. 95: the
/// writer failed. Nothing is written at 40 and 80; at the others a beginning of the text may be.
pub fn write_public<S: Alter, W: Write + Device>(
    alloc: Global,
    archive: &mut Archive<S>,
    today: i32,
    writer: &mut W,
) -> Result<(), RefusalKind>
    requires kept { archive.old.is_lost ≡ false }
    ensures written { OnOk result (OnOpen (state S.Store archive.old.conn) (state S.Store archive.new.conn)
        (λ society c. IsPublished (W.contents writer.old) (W.contents writer.new) today society c)) }
    ensures begun { IfErr result (λ kind. OnOpen (state S.Store archive.old.conn) (state S.Store archive.new.conn)
        (λ society c. IsPartPublished kind (W.contents writer.old) (W.contents writer.new) today society c)) }
    ensures unread { IfErr result
        (λ kind. is_failure kind ≡ true → Keeps (W.contents writer.old) (W.contents writer.new)) }
    ensures writer { IfErr result (λ kind. kind ≡ WriteFailed → Rose (W.failed writer.old) (W.failed writer.new)) }
    ensures lost { archive.new.is_lost ≡ has_broken result }
    // Whether the tables are good or not.
    ensures sound { OnOk result (OfSound (state S.Store archive.old.conn) (state S.Store archive.new.conn)
        (λ c. (society : List ℕ) × IsPublished (W.contents writer.old) (W.contents writer.new) today society c)) }
    ensures reads { OnlyReadsAny S.Store archive.old archive.new }
{
    match society_of(alloc, archive) {
        Ok(society) => write_named(alloc, archive, society.as_str(), today, writer),
        Err(kind) => Err(kind),
    }
}

/// The same under a name.
fn write_named<S: Alter, W: Write + Device>(
    alloc: Global,
    archive: &mut Archive<S>,
    society: &str,
    today: i32,
    writer: &mut W,
) -> Result<(), RefusalKind>
    requires kept { archive.old.is_lost ≡ false }
    ensures written { OnOk result (OnOpen (state S.Store archive.old.conn) (state S.Store archive.new.conn)
        (λ _ c. IsPublished (W.contents writer.old) (W.contents writer.new) today society.now c)) }
    ensures begun { IfErr result (λ kind. OnOpen (state S.Store archive.old.conn) (state S.Store archive.new.conn)
        (λ _ c. IsPartPublished kind (W.contents writer.old) (W.contents writer.new) today society.now c)) }
    ensures unread { IfErr result
        (λ kind. is_failure kind ≡ true → Keeps (W.contents writer.old) (W.contents writer.new)) }
    ensures writer { IfErr result (λ kind. kind ≡ WriteFailed → Rose (W.failed writer.old) (W.failed writer.new)) }
    ensures lost { archive.new.is_lost ≡ has_broken result }
    ensures sound { OnOk result (OfSound (state S.Store archive.old.conn) (state S.Store archive.new.conn)
        (λ c. IsPublished (W.contents writer.old) (W.contents writer.new) today society.now c)) }
    ensures reads { OnlyReadsAny S.Store archive.old archive.new }
{
    match shown_of(alloc, archive, today) {
        Ok(shown) => write_shown(alloc, &shown, society, writer),
        Err(kind) => Err(kind),
    }
}

/// Writes what is shown under a name.
fn write_shown<W: Write + Device>(
    alloc: Global,
    shown: &Shown,
    society: &str,
    writer: &mut W,
) -> Result<(), RefusalKind>
    ensures written { IsSound shown.now → OnOk result
        (IsWhole (W.contents writer.old) (W.contents writer.new) (export_text society.now shown.now)) }
    ensures begun { IsSound shown.now → IfErr result (λ kind.
        IsNotBegun kind (W.contents writer.old) (W.contents writer.new)
        ⊎ IsCut kind (W.contents writer.old) (W.contents writer.new) (export_text society.now shown.now)) }
    ensures own { IfErr result (λ kind. is_failure kind ≡ false) }
    ensures writer { IfErr result (λ kind. kind ≡ WriteFailed → Rose (W.failed writer.old) (W.failed writer.new)) }
{
    match public_export(alloc, shown, society, writer) {
        Ok(()) => Ok(()),
        Err(refusal) => Err(refusal.kind),
    }
}
