//! What is between two days in an archive that is open, written.

ghost use Rattle.std.specs.Prelude.{◌≡◌, ◌⊎◌, ◌≤ℤ◌, false, true, IfErr, OnOk};
ghost use Rattle.std.specs.Io.KnownBytes.{Keeps};
ghost use Rattle.sqlite.specs.Held.{state};
ghost use Rattle.archive_output.specs.Reading.{OnOpen, OnlyReadsAny};
ghost use Rattle.archive_state.specs.Looks.{is_failure};
ghost use Rattle.devices.specs.Devices.{Rose};
ghost use Rattle.record_text.specs.declared.refusal.RefusalKind.TheVariants.{WriteFailed};
ghost use Rattle.store.specs.Histories.{has_broken};
ghost use Rattle.archive_output.specs.Ends.{AreCut, AreReversed, AreWritten};

use crate::finding::text_of;
use crate::texts::write_text;
use devices::Device;
use record_text::RefusalKind;
use sqlite::Alter;
use std::alloc::Global;
use std::io::Write;
use store::Archive;

/// Writes the events and register entries of an archive that is open whose date may mean a day from the first to the
/// last, counted from 1970-01-01, by number, one a line; with words what each is. The archive is not changed; an import
/// that is open stays open, and nothing of it is written.
///
/// 87: the first day is after the last. 80: the database failed, and the archive has to be opened again. 40: somebody
/// else has spoilt what is stored. At these nothing is written. 95: the output failed. 1: memory was refused. At these
/// a beginning of the text may have been written.
pub fn write_days<S: Alter, W: Write + Device>(
    alloc: Global,
    archive: &mut Archive<S>,
    first: i32,
    last: i32,
    words: bool,
    writer: &mut W,
) -> Result<(), RefusalKind>
    requires kept { archive.old.is_lost ≡ false }
    ensures written { OnOk result ((first ≤ℤ last)
        × OnOpen (state S.Store archive.old.conn) (state S.Store archive.new.conn)
        (λ _ c. AreWritten words first last (W.contents writer.old) (W.contents writer.new) c)) }
    ensures cut { IfErr result (λ kind.
        (AreReversed kind first last (W.contents writer.old) (W.contents writer.new)
        × (archive.new.conn ≡ archive.old.conn))
        ⊎ ((first ≤ℤ last) × OnOpen (state S.Store archive.old.conn) (state S.Store archive.new.conn)
        (λ _ c. AreCut kind words first last (W.contents writer.old) (W.contents writer.new) c))) }
    ensures unread { IfErr result
        (λ kind. is_failure kind ≡ true → Keeps (W.contents writer.old) (W.contents writer.new)) }
    ensures writer { IfErr result (λ kind. kind ≡ WriteFailed → Rose (W.failed writer.old) (W.failed writer.new)) }
    ensures lost { archive.new.is_lost ≡ has_broken result }
    ensures reads { OnlyReadsAny S.Store archive.old archive.new }
{
    if first > last {
        return Err(RefusalKind::DaysReversed);
    }
    write_found(alloc, archive, first, last, words, writer)
}

/// The same, where the first day is not after the last.
fn write_found<S: Alter, W: Write + Device>(
    alloc: Global,
    archive: &mut Archive<S>,
    first: i32,
    last: i32,
    words: bool,
    writer: &mut W,
) -> Result<(), RefusalKind>
    requires kept { archive.old.is_lost ≡ false }
    ensures written { OnOk result (OnOpen (state S.Store archive.old.conn) (state S.Store archive.new.conn)
        (λ _ c. AreWritten words first last (W.contents writer.old) (W.contents writer.new) c)) }
    ensures cut { IfErr result (λ kind. OnOpen (state S.Store archive.old.conn) (state S.Store archive.new.conn)
        (λ _ c. AreCut kind words first last (W.contents writer.old) (W.contents writer.new) c)) }
    ensures unread { IfErr result
        (λ kind. is_failure kind ≡ true → Keeps (W.contents writer.old) (W.contents writer.new)) }
    ensures writer { IfErr result (λ kind. kind ≡ WriteFailed → Rose (W.failed writer.old) (W.failed writer.new)) }
    ensures lost { archive.new.is_lost ≡ has_broken result }
    ensures reads { OnlyReadsAny S.Store archive.old archive.new }
{
    match text_of(alloc, archive, first, last, words) {
        Ok(text) => write_text(text.as_str(), writer),
        Err(kind) => Err(kind),
    }
}
