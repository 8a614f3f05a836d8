//! The plain archive of what is shown of an archive that is open, written as a GEDCOM file.

ghost use Rattle.std.specs.Prelude.{◌≡◌, ℕ, List, false, true, IfErr, IfOk, string_bytes};
ghost use Rattle.std.specs.Io.KnownBytes.{Keeps};
ghost use Rattle.sqlite.specs.Held.{state};
ghost use Rattle.archive_state.specs.Looks.{is_failure};
ghost use Rattle.devices.specs.Devices.{Rose};
ghost use Rattle.record_text.specs.declared.refusal.RefusalKind.TheVariants.{WriteFailed};
ghost use Rattle.store.specs.Histories.{has_broken};
ghost use Rattle.archive_output.specs.Plain.{IsPartPlainPublished, IsPlainPart, IsPlainPublished, IsPlainWhole};
ghost use Rattle.archive_output.specs.Reading.{OnOpen, OnlyReadsAny};
ghost use Rattle.archive_output.specs.Showing.{OfSound};

use crate::plain_writing::write_state;
use crate::reading::society_of;
use crate::showing::shown_of;
use devices::Device;
use masking::Shown;
use record_text::RefusalKind;
use sqlite::Alter;
use std::alloc::Global;
use std::io::Write;
use store::Archive;

/// Writes the plain archive of what is shown of an archive on a day as a GEDCOM file under the name of its society. The
/// archive is read whole, and not changed; an import that is open stays open.
///
/// 1: memory was refused. 40: somebody else has spoilt what is stored, which cannot be read or is not sound. 80: the
/// database failed, and the archive has to be opened again. 70: the text would have more than 67,108,864 bytes, or a
/// text in it more than 1,048,576. 95: the writer failed. Nothing is written at 40 and 80; at the others a prefix of
/// the text may be. Where it is written whole, the answer is the lines of what it leaves out of what is shown.
pub fn write_public_plain<S: Alter, W: Write + Device>(
    alloc: Global,
    archive: &mut Archive<S>,
    today: i32,
    writer: &mut W,
) -> Result<String, RefusalKind>
    requires kept { archive.old.is_lost ≡ false }
    ensures written { IfOk result (λ left_out. OnOpen (state S.Store archive.old.conn) (state S.Store archive.new.conn)
        (λ society c. IsPlainPublished (W.contents writer.old) (W.contents writer.new) (string_bytes left_out) today
        society c)) }
    ensures begun { IfErr result (λ kind. OnOpen (state S.Store archive.old.conn) (state S.Store archive.new.conn)
        (λ society c. IsPartPlainPublished kind (W.contents writer.old) (W.contents writer.new) today society c)) }
    ensures unread { IfErr result
        (λ kind. is_failure kind ≡ true → Keeps (W.contents writer.old) (W.contents writer.new)) }
    ensures writer { IfErr result (λ kind. kind ≡ WriteFailed → Rose (W.failed writer.old) (W.failed writer.new)) }
    ensures lost { archive.new.is_lost ≡ has_broken result }
    // Whether the tables are good or not.
    ensures sound { IfOk result (λ left_out. OfSound (state S.Store archive.old.conn) (state S.Store archive.new.conn)
        (λ c. (society : List ℕ) × IsPlainPublished (W.contents writer.old) (W.contents writer.new)
        (string_bytes left_out) today society c)) }
    ensures reads { OnlyReadsAny S.Store archive.old archive.new }
{
    match society_of(alloc, archive) {
        Ok(society) => write_named(alloc, archive, society.as_str(), today, writer),
        Err(kind) => Err(kind),
    }
}

/// The same under a name.
fn write_named<S: Alter, W: Write + Device>(
    alloc: Global,
    archive: &mut Archive<S>,
    society: &str,
    today: i32,
    writer: &mut W,
) -> Result<String, RefusalKind>
    requires kept { archive.old.is_lost ≡ false }
    ensures written { IfOk result (λ left_out. OnOpen (state S.Store archive.old.conn) (state S.Store archive.new.conn)
        (λ _ c. IsPlainPublished (W.contents writer.old) (W.contents writer.new) (string_bytes left_out) today
        society.now c)) }
    ensures begun { IfErr result (λ kind. OnOpen (state S.Store archive.old.conn) (state S.Store archive.new.conn)
        (λ _ c. IsPartPlainPublished kind (W.contents writer.old) (W.contents writer.new) today society.now c)) }
    ensures unread { IfErr result
        (λ kind. is_failure kind ≡ true → Keeps (W.contents writer.old) (W.contents writer.new)) }
    ensures writer { IfErr result (λ kind. kind ≡ WriteFailed → Rose (W.failed writer.old) (W.failed writer.new)) }
    ensures lost { archive.new.is_lost ≡ has_broken result }
    ensures sound { IfOk result (λ left_out. OfSound (state S.Store archive.old.conn) (state S.Store archive.new.conn)
        (λ c. IsPlainPublished (W.contents writer.old) (W.contents writer.new) (string_bytes left_out) today society.now
        c)) }
    ensures reads { OnlyReadsAny S.Store archive.old archive.new }
{
    match shown_of(alloc, archive, today) {
        Ok(shown) => write_shown(alloc, &shown, society, writer),
        Err(kind) => Err(kind),
    }
}

/// Writes the plain archive of what is shown under a name.
fn write_shown<W: Write + Device>(
    alloc: Global,
    shown: &Shown,
    society: &str,
    writer: &mut W,
) -> Result<String, RefusalKind>
    ensures written { IfOk result (λ left_out. IsPlainWhole (W.contents writer.old) (W.contents writer.new)
        (string_bytes left_out) society.now shown.now) }
    ensures begun { IfErr result
        (λ kind. IsPlainPart kind (W.contents writer.old) (W.contents writer.new) society.now shown.now) }
    ensures own { IfErr result (λ kind. is_failure kind ≡ false) }
    ensures writer { IfErr result (λ kind. kind ≡ WriteFailed → Rose (W.failed writer.old) (W.failed writer.new)) }
{
    write_state(alloc, shown.as_state(), society, writer)
}
