//! The plain export.

ghost use Rattle.std.specs.Prelude.{◌≡◌, ◌⊎◌, IfErr, MatchResult, None, false};
ghost use Rattle.devices.specs.Devices.{Rose};
ghost use Rattle.gedcom_tree.specs.Text.{text};
ghost use Rattle.record_text.specs.declared.refusal.RefusalKind.TheVariants.{ExportTooLarge, OutOfMemory, WriteFailed};
ghost use Rattle.archive_state.specs.Content.{Records};
ghost use Rattle.archive_state.specs.Looks.{is_failure};
ghost use Rattle.gedcom_export.specs.Forest.{exported};
ghost use Rattle.gedcom_export.specs.Ends.{IsWhole};
ghost use Rattle.plain_export.specs.Fitting.{IsPlainBegun};
ghost use Rattle.plain_export.specs.Plain.{IsPlain};

use crate::making::plain_state;
use archive_state::State;
use devices::Device;
use gedcom_export::export_state;
use record_text::{Refusal, RefusalKind};
use std::alloc::Global;
use std::io::Write;

/// Writes the plain archive of the records of a state as `export_state` writes these (GEDCOM 5.5.1). It is refused with
/// 70 (`ExportTooLarge`) where that text has over 67,108,864 bytes, or a text in it over 1,048,576; with 95
/// (`WriteFailed`) where the writer failed, and with 1 where memory was refused; at a refusal the writer has got a
/// beginning of the text.
pub fn export_plain<W: Write + Device>(
    alloc: Global,
    state: &State,
    society: &str,
    writer: &mut W,
) -> Result<(), Refusal>
    ensures written { (plain : Records) → IsPlain state.now.records plain → MatchResult result
        (λ _. IsWhole (W.contents writer.old) (W.contents writer.new) (text (exported plain society.now)))
        (λ e. IsPlainBegun (W.contents writer.old) (W.contents writer.new) state.now.records
        (text (exported plain society.now)) e.kind) }
    ensures writer { IfErr result (λ e. e.kind ≡ WriteFailed → Rose (W.failed writer.old) (W.failed writer.new)) }
    ensures own { IfErr result (λ e. is_failure e.kind ≡ false) }
    ensures nowhere { IfErr result (λ e. e.at ≡ None) }
{
    match plain_state(alloc, state) {
        Ok(plain) => export_state(alloc, &plain, society, writer),
        Err(kind) => Err(Refusal {
            kind: reason_of(kind),
            at: None,
        }),
    }
}

/// Why a plain archive was not made: memory was refused, or otherwise something in it is too long.
fn reason_of(kind: RefusalKind) -> RefusalKind
    ensures { ((kind ≡ OutOfMemory) × (result ≡ OutOfMemory)) ⊎ ((¬ (kind ≡ OutOfMemory)) × (result ≡ ExportTooLarge)) }
{
    match kind {
        RefusalKind::OutOfMemory => RefusalKind::OutOfMemory,
        _ => RefusalKind::ExportTooLarge,
    }
}
