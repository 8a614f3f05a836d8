//! A text, written.

ghost use Rattle.std.specs.Prelude.{◌≡◌, ◌⊎◌, IfErr, OnErr, OnOk};
ghost use Rattle.std.specs.Io.KnownBytes.{Appends};
ghost use Rattle.devices.specs.Devices.{AppendsBeginning, Rose};
ghost use Rattle.record_text.specs.declared.refusal.RefusalKind.TheVariants.{OutOfMemory, WriteFailed};

use devices::{Device, TransferError, write_bytes};
use record_text::RefusalKind;
use std::io::Write;

/// Writes a text. 95: the writer failed. 1: memory was refused. Then a beginning is written.
pub fn write_text<W: Write + Device>(text: &str, writer: &mut W) -> Result<(), RefusalKind>
    ensures written { OnOk result (Appends (W.contents writer.old) (W.contents writer.new) text.now) }
    ensures begun { OnErr result (AppendsBeginning (W.contents writer.old) (W.contents writer.new) text.now) }
    ensures why { IfErr result (λ kind. (kind ≡ WriteFailed) ⊎ (kind ≡ OutOfMemory)) }
    ensures writer { IfErr result (λ kind. kind ≡ WriteFailed → Rose (W.failed writer.old) (W.failed writer.new)) }
{
    let before = writer.failures();
    match write_bytes(writer, before, text.as_bytes()) {
        Ok(()) => Ok(()),
        Err(TransferError::OutOfMemory) => Err(RefusalKind::OutOfMemory),
        Err(TransferError::Failed) => Err(RefusalKind::WriteFailed),
    }
}
