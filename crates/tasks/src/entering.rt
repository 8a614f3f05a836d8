//! A batch of register entries, entered on an archive, and the line that says so.

ghost use Rattle.std.specs.Prelude.{◌≡◌, ◌⊎◌, Err, IfErr, IfOk, Ok, OnOk, string_bytes};
ghost use Rattle.std.specs.Io.KnownBytes.{Appends, Keeps};
ghost use Rattle.request_csv.specs.Input.{row_bytes};
ghost use Rattle.devices.specs.Devices.{Rose};
ghost use Rattle.receipts.specs.declared.answer.Answer.{Answer as SpecAnswer};
ghost use Rattle.record_text.specs.declared.refusal.RefusalKind.{RefusalKind as SpecKind};
ghost use Rattle.archive_tables.specs.RowBatches.{Enters, IsNoBatch};
ghost use Rattle.tasks.specs.Parts.{IsPrintedPart};
ghost use Rattle.tasks.specs.Status.{placeless_text};
ghost use Rattle.tasks.specs.Texts.{made_text};

use crate::status::placeless;
use archive_output::write_text;
use archive_tables::enter;
use devices::Device;
use receipts::{Answer, Token};
use record_text::{RefusalKind, RefusalText, Unit};
use row_references::NumberWord;
use sqlite::Alter;
use std::alloc::{AllocError, Global};
use std::io::{Read, Write};
use store::Archive;

/// Enters the rows of the input as a batch of a source, under a token, and prints how many entries were made, with the
/// number of the first. Refusals as of `archive_tables::enter`, with the row; nothing is printed then. 95: the output
/// failed. 1: no memory was found for the line. At these two the batch was entered, and of the line a prefix may be
/// printed.
pub(crate) fn enter_batch<S: Alter, R: Read + Device, W: Write + Device>(
    alloc: Global,
    archive: &mut Archive<S>,
    token: Token,
    source: &NumberWord,
    input: &mut R,
    output: &mut W,
) -> Result<(), RefusalText>
    ensures entered { OnOk result ((answer : SpecAnswer)
        × Enters S.Store token source.now (row_bytes (R.remaining input.old)) archive.old (Ok answer) archive.new
        × Appends (W.contents output.old) (W.contents output.new) (made_text answer)) }
    ensures refused { IfErr result (λ t. ((Enters S.Store token source.now (row_bytes (R.remaining input.old))
        archive.old (Err t.refusal) archive.new
        ⊎ ((archive.new ≡ archive.old) × IsNoBatch (row_bytes (R.remaining input.old)) t.refusal
        (Rose (R.failed input.old) (R.failed input.new)))) × Keeps (W.contents output.old) (W.contents output.new))
        ⊎ ((answer : SpecAnswer) × (kind : SpecKind) × (t ≡ placeless_text kind)
        × Enters S.Store token source.now (row_bytes (R.remaining input.old)) archive.old (Ok answer) archive.new
        × IsPrintedPart (made_text answer) kind (W.contents output.old) (W.contents output.new)
        (Rose (W.failed output.old) (W.failed output.new)))) }
{
    match enter(alloc, archive, token, source, input) {
        Ok(answer) => match print_made(alloc, answer, output) {
            Ok(()) => Ok(()),
            Err(kind) => Err(placeless(kind)),
        },
        Err(why) => Err(why.text(Unit::Row)),
    }
}

/// Prints how many entries were made, and the number of the first.
pub(crate) fn print_made<W: Write + Device>(
    alloc: Global,
    answer: Answer,
    output: &mut W,
) -> Result<(), RefusalKind>
    ensures printed { OnOk result (Appends (W.contents output.old) (W.contents output.new) (made_text answer)) }
    ensures part { IfErr result (λ kind. IsPrintedPart (made_text answer) kind (W.contents output.old)
        (W.contents output.new) (Rose (W.failed output.old) (W.failed output.new))) }
{
    let line = made_line(alloc, answer)?;
    write_text(&line, output)
}

/// How many entries were made, and the number of the first. Refused only if memory is.
fn made_line(alloc: Global, answer: Answer) -> Result<String, AllocError>
    ensures { IfOk result (λ line. string_bytes line ≡ made_text answer) }
{
    let Answer { first, count } = answer;
    format!(in alloc; "made {count} entries, first {first}\n")
}
