//! The public export.

ghost use Rattle.std.specs.Prelude.{◌≡◌, false, None, MatchResult, IfErr};
ghost use Rattle.devices.specs.Devices.{Rose};
ghost use Rattle.gedcom_tree.specs.Text.{text};
ghost use Rattle.record_text.specs.declared.refusal.RefusalKind.TheVariants.{WriteFailed};
ghost use Rattle.archive_state.specs.Sound.{IsSound};
ghost use Rattle.archive_state.specs.Looks.{is_failure};
ghost use Rattle.gedcom_export.specs.Forest.{exported};
ghost use Rattle.gedcom_export.specs.Ends.{IsBegun, IsWhole};

use devices::Device;
use gedcom_export::export_state;
use masking::Shown;
use record_text::Refusal;
use std::alloc::Global;
use std::io::Write;

/// Writes what is shown of an archive as `export` writes an archive. 70: the text would have over 67,108,864 bytes. 95:
/// the writer failed. 1: memory was refused. Then a beginning of the text is written.
pub fn public_export<W: Write + Device>(
    alloc: Global,
    shown: &Shown,
    society: &str,
    writer: &mut W,
) -> Result<(), Refusal>
    ensures written { IsSound shown.now → MatchResult result
        (λ _. IsWhole (W.contents writer.old) (W.contents writer.new) (text (exported shown.now.records society.now)))
        (λ e. IsBegun (W.contents writer.old) (W.contents writer.new) (text (exported shown.now.records society.now))
        e.kind) }
    ensures writer { IfErr result (λ e. e.kind ≡ WriteFailed → Rose (W.failed writer.old) (W.failed writer.new)) }
    ensures own { IfErr result (λ e. is_failure e.kind ≡ false) }
    ensures nowhere { IfErr result (λ e. e.at ≡ None) }
{
    export_state(alloc, shown.as_state(), society, writer)
}
