//! Text on its way to a writer, counted.

ghost use Rattle.std.specs.Prelude.{◌≡◌, [], false, MatchResult, OnOk, IfErr, string_bytes};
ghost use Rattle.devices.specs.Devices.{Rose};
ghost use Rattle.record_text.specs.declared.refusal.RefusalKind.TheVariants.{WriteFailed};
ghost use Rattle.archive_state.specs.Looks.{is_failure};
ghost use Rattle.gedcom_export.specs.Waiting.{Halts, IsShort, Moves};

use devices::{Device, TransferError, write_bytes};
use record_text::RefusalKind;
use std::alloc::Global;
use std::io::Write;

/// So many bytes are put together before the writer gets them.
const BUFFER: usize = 65_536;

/// The most bytes of an export.
const LIMIT: u64 = 67_108_864;

/// Text on its way to a writer.
pub(crate) struct Output {
    /// How many bytes were handed over.
    pub written: u64,
    /// What waits.
    pub text: String,
}

// It is written out, so that no function above proves again how each part is dropped.
impl Drop for Output {
    fn drop(self) {
        let Output {
            written: _,
            text: _,
        } = self;
    }
}

impl Output {
    /// Nothing yet. Takes no memory.
    pub(crate) fn new(alloc: Global) -> Output
        ensures written { result.written ≡ 0 }
        ensures text { string_bytes result.text ≡ [] }
    {
        Output {
            written: 0,
            text: String::new(alloc),
        }
    }
}

/// Hands over what waits, and counts it.
pub(crate) fn hand_over<W: Write + Device>(
    writer: &mut W,
    before: u64,
    out: &mut Output,
) -> Result<(), RefusalKind>
    requires { IsShort out.old }
    ensures moved { MatchResult result
        (λ _. Moves (W.contents writer.old) (W.contents writer.new) out.old out.new [])
        (λ e. Halts (W.contents writer.old) (W.contents writer.new) out.old [] e) }
    ensures short { OnOk result (IsShort out.new) }
    ensures all { OnOk result (string_bytes out.new.text ≡ []) }
    ensures writer { IfErr result (λ e. e ≡ WriteFailed → Rose before (W.failed writer.new)) }
    ensures own { IfErr result (λ e. is_failure e ≡ false) }
{
    let handed = write_bytes(writer, before, out.text.as_bytes());
    out.written += out.text.len() as u64;
    out.text.clear();
    match handed {
        Ok(()) => Ok(()),
        Err(TransferError::OutOfMemory) => Err(RefusalKind::OutOfMemory),
        Err(TransferError::Failed) => Err(RefusalKind::WriteFailed),
    }
}

/// Hands over what waits where it is long enough. Refused with 70 where what was handed over and what waits are more
/// than the most bytes: the writer gets none of it then.
pub(crate) fn make_way<W: Write + Device>(
    writer: &mut W,
    before: u64,
    out: &mut Output,
) -> Result<(), RefusalKind>
    ensures moved { MatchResult result
        (λ _. Moves (W.contents writer.old) (W.contents writer.new) out.old out.new [])
        (λ e. Halts (W.contents writer.old) (W.contents writer.new) out.old [] e) }
    ensures short { OnOk result (IsShort out.new) }
    ensures writer { IfErr result (λ e. e ≡ WriteFailed → Rose before (W.failed writer.new)) }
    ensures own { IfErr result (λ e. is_failure e ≡ false) }
{
    if out.written.saturating_add(out.text.len() as u64) > LIMIT {
        return Err(RefusalKind::ExportTooLarge);
    }
    if out.text.len() < BUFFER {
        return Ok(());
    }
    hand_over(writer, before, out)
}
