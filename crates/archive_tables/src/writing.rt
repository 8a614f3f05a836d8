//! Texts of an archive that is open, written.

ghost use Rattle.std.specs.Prelude.{◌≡◌, ◌⊎◌, ℕ, List, Option, Some, false, true, IfErr, OnErr, OnOk, option_map};
ghost use Rattle.std.specs.Io.KnownBytes.{Appends, Keeps};
ghost use Rattle.sqlite.specs.Held.{state};
ghost use Rattle.archive_output.specs.Reading.{OnlyReads};
ghost use Rattle.archive_state.specs.Looks.{CountsFailures, Looked, is_failure, is_stop};
ghost use Rattle.archive_state.specs.Views.{On};
ghost use Rattle.devices.specs.Devices.{AppendsBeginning, Rose};
ghost use Rattle.record_lists.specs.Texts.{list_text};
ghost use Rattle.record_text.specs.declared.refusal.RefusalKind.TheVariants.{BadStored, OutOfMemory, WriteFailed};
ghost use Rattle.store.specs.Histories.{has_broken};
ghost use Rattle.archive_tables.specs.Ends.{EndsWriting, OnRead};
ghost use Rattle.archive_tables.specs.Texts as texts;

use crate::sources::listed_of;
use crate::whole::shown_bytes;
use devices::{Device, TransferError, write_bytes};
use kind_views::KindView;
use record_lists::{Listed, list_text};
use record_text::RefusalKind;
use row_references::{NumberWord, number_in};
use sqlite::Alter;
use std::alloc::Global;
use std::io::Write;
use store::Archive;
use store::laws::looks_are_a_call;

/// Writes what is listed, as lines or as rows of CSV, and of records how many more there are if that is asked for; if a
/// word gives the number of a source, only what is of that source. The archive is not changed; an import that is open
/// stays open, and nothing of it is written.
///
/// 50: the word gives no number. 80: the database failed, and the archive has to be opened again. 40: somebody else has
/// spoilt what is stored. At these nothing is written. 95: the output failed. 1: memory was refused. At these a
/// beginning of the text may have been written.
pub fn write_list<S: Alter, W: Write + Device>(
    alloc: Global,
    archive: &mut Archive<S>,
    source: &Option<NumberWord>,
    listed: Listed,
    writer: &mut W,
) -> Result<(), RefusalKind>
    requires kept { archive.old.is_lost ≡ false }
    ensures ended { OnRead (state S.Store archive.old.conn) (state S.Store archive.new.conn)
        (λ c. EndsWriting result (W.contents writer.old) (W.contents writer.new) (texts.list_of source.now listed c)) }
    ensures unread { IfErr result
        (λ kind. is_failure kind ≡ true → Keeps (W.contents writer.old) (W.contents writer.new)) }
    ensures writer { IfErr result (λ kind. kind ≡ WriteFailed → Rose (W.failed writer.old) (W.failed writer.new)) }
    ensures lost { archive.new.is_lost ≡ has_broken result }
    ensures reads { OnlyReads S.Store archive.old archive.new }
{
    looks_are_a_call::<S>();
    let import = archive.set_aside();
    let text = listed_bytes(alloc, archive, source, listed);
    archive.put_back(import);
    write_found(archive.is_lost(), text, writer)
}

/// Writes the records of these numbers, each whole, with a blank line between two. The archive is not changed; an
/// import that is open stays open, and nothing of it is written.
///
/// 50: a word gives no number, or one that is of no record and no slip. 80: the database failed, and the archive has to
/// be opened again. 40: somebody else has spoilt what is stored. At these nothing is written. 95: the output failed. 1:
/// memory was refused. At these a beginning of the text may have been written.
pub fn write_shown<S: Alter, W: Write + Device>(
    alloc: Global,
    archive: &mut Archive<S>,
    numbers: &[NumberWord],
    writer: &mut W,
) -> Result<(), RefusalKind>
    requires kept { archive.old.is_lost ≡ false }
    ensures ended { OnRead (state S.Store archive.old.conn) (state S.Store archive.new.conn)
        (λ c. EndsWriting result (W.contents writer.old) (W.contents writer.new) (texts.shown_text c numbers.now)) }
    ensures unread { IfErr result
        (λ kind. is_failure kind ≡ true → Keeps (W.contents writer.old) (W.contents writer.new)) }
    ensures writer { IfErr result (λ kind. kind ≡ WriteFailed → Rose (W.failed writer.old) (W.failed writer.new)) }
    ensures lost { archive.new.is_lost ≡ has_broken result }
    ensures reads { OnlyReads S.Store archive.old archive.new }
{
    looks_are_a_call::<S>();
    let import = archive.set_aside();
    let text = shown_bytes(alloc, archive, numbers);
    archive.put_back(import);
    write_found(archive.is_lost(), text, writer)
}

/// What is listed. `None`: it is of a source of which the word gives no number.
fn listed_bytes<V: KindView>(
    alloc: Global,
    view: &mut V,
    source: &Option<NumberWord>,
    listed: Listed,
) -> Result<Option<Vec<u8>>, RefusalKind>
    ensures shows { On V.View view.old view.new (λ c. Looked result
        (λ text. option_map texts.items_of text ≡ texts.list_of source.now listed c)) }
    ensures counts { CountsFailures (V.View.failed view.old) (V.View.failed view.new) result }
{
    match source {
        None => all_bytes(alloc, view, listed),
        Some(word) => bytes_by(alloc, view, word, listed),
    }
}

/// What is listed of the source of which a word gives the number. `None`: it gives none.
fn bytes_by<V: KindView>(
    alloc: Global,
    view: &mut V,
    word: &NumberWord,
    listed: Listed,
) -> Result<Option<Vec<u8>>, RefusalKind>
    ensures shows { On V.View view.old view.new (λ c. Looked result
        (λ text. option_map texts.items_of text ≡ texts.list_by word.now listed c)) }
    ensures counts { CountsFailures (V.View.failed view.old) (V.View.failed view.new) result }
{
    match number_in(alloc, view, word)? {
        Some(number) => all_bytes(alloc, view, listed_of(listed, number)),
        None => Ok(None),
    }
}

/// What is listed. There always is a text.
fn all_bytes<V: KindView>(
    alloc: Global,
    view: &mut V,
    listed: Listed,
) -> Result<Option<Vec<u8>>, RefusalKind>
    ensures shows { On V.View view.old view.new (λ c. Looked result
        (λ text. option_map texts.items_of text ≡ Some (list_text listed c))) }
    ensures counts { CountsFailures (V.View.failed view.old) (V.View.failed view.new) result }
{
    let text = list_text(alloc, view, &listed)?;
    Ok(Some(text))
}

/// Writes what looks have found, unless they lost the archive: then it is 80. 50: there is no text.
pub(crate) fn write_found<W: Write + Device>(
    is_lost: bool,
    found: Result<Option<Vec<u8>>, RefusalKind>,
    writer: &mut W,
) -> Result<(), RefusalKind>
    ensures ended { (right : Option (List ℕ)) → (is_lost ≡ false → IfErr found (λ kind. is_failure kind ≡ false))
        → Looked found (λ text. option_map texts.items_of text ≡ right)
        → EndsWriting result (W.contents writer.old) (W.contents writer.new) right }
    ensures unread { IfErr result
        (λ kind. is_failure kind ≡ true → Keeps (W.contents writer.old) (W.contents writer.new)) }
    ensures writer { IfErr result (λ kind. kind ≡ WriteFailed → Rose (W.failed writer.old) (W.failed writer.new)) }
    ensures lost { has_broken result ≡ is_lost }
{
    if is_lost {
        return Err(RefusalKind::Storage);
    }
    match found {
        Ok(text) => write_some(&text, writer),
        Err(kind) => Err(kept_refusal(kind)),
    }
}

/// Writes a text. 50: there is none.
fn write_some<W: Write + Device>(text: &Option<Vec<u8>>, writer: &mut W) -> Result<(), RefusalKind>
    ensures ended { EndsWriting result (W.contents writer.old) (W.contents writer.new)
        (option_map texts.items_of text.now) }
    ensures unread { IfErr result (λ kind. is_failure kind ≡ false) }
    ensures writer { IfErr result (λ kind. kind ≡ WriteFailed → Rose (W.failed writer.old) (W.failed writer.new)) }
{
    match text {
        Some(text) => write_all(text, writer),
        None => Err(RefusalKind::NoSuch),
    }
}

/// Writes bytes. 95: the writer failed. 1: memory was refused. Then a beginning is written.
fn write_all<W: Write + Device>(bytes: &[u8], writer: &mut W) -> Result<(), RefusalKind>
    ensures written { OnOk result (Appends (W.contents writer.old) (W.contents writer.new) bytes.now) }
    ensures begun { OnErr result (AppendsBeginning (W.contents writer.old) (W.contents writer.new) bytes.now) }
    ensures why { IfErr result (λ kind. (kind ≡ WriteFailed) ⊎ (kind ≡ OutOfMemory)) }
    ensures writer { IfErr result (λ kind. kind ≡ WriteFailed → Rose (W.failed writer.old) (W.failed writer.new)) }
{
    let before = writer.failures();
    match write_bytes(writer, before, bytes) {
        Ok(()) => Ok(()),
        Err(TransferError::OutOfMemory) => Err(RefusalKind::OutOfMemory),
        Err(TransferError::Failed) => Err(RefusalKind::WriteFailed),
    }
}

/// What looks that did not lose the archive are refused with: 1 or 40.
fn kept_refusal(kind: RefusalKind) -> RefusalKind
    ensures want { is_stop kind ≡ true → is_failure kind ≡ false → result ≡ OutOfMemory }
    ensures either { (result ≡ OutOfMemory) ⊎ (result ≡ BadStored) }
{
    match kind {
        RefusalKind::OutOfMemory => RefusalKind::OutOfMemory,
        _ => RefusalKind::BadStored,
    }
}
