//! What holds of tasks that show an archive: two archives which differ only in what is hidden give the same bytes and
//! the same refusal, and so, by `Finishes`, the same exit status and the same line on the faults, unless memory is
//! refused, the database fails or the writer does.

ghost use Rattle.std.specs.Prelude.{◌≡◌, ◌⊎◌, ℕ, ℤ, List, OnOk, Option};
ghost use Rattle.archive_state.specs.Content.{Content};
ghost use Rattle.record_text.specs.declared.refusal.RefusalKind.{RefusalKind};
ghost use Rattle.archive_output.specs.Plain.{IsPlainPublished};
ghost use Rattle.archive_output.specs.Showing.{IsShown};
ghost use Rattle.archive_output.specs.Writing.{IsPartPublished, IsPublished, IsSheetRefused, IsSheetWritten};
ghost use Rattle.archive_output.specs.declared.sheet.Sheet.{Sheet};
ghost use Rattle.tasks.specs.Ends.{Ends};
ghost use Rattle.tasks.specs.Hiding.{
  DifferInHidden,
  EndAlike,
  GotTheSame,
  HasFailed,
  IsCutShort,
  IsOver,
  ReportTheSame,
  ShowsOn,
};
ghost use Rattle.tasks.specs.Moments.{Moment};
ghost use Rattle.tasks.specs.declared.task.Task.{Task};
ghost use Rattle.tasks.specs.declared.task.Task.TheVariants as task;

use devices::Device;
use sqlite::Alter;
use std::io::{Read, Write};

/// What is hidden changes no sheet that is printed, and no refusal of one.
pub fn what_is_hidden_changes_no_sheet_that_is_printed()
    ensures printed { (a b : Content) (today : ℤ) (sheet : Sheet) (x y v w : Option (List ℕ))
        → DifferInHidden a b today → IsSheetWritten x y sheet today a → IsSheetWritten v w sheet today b
        → GotTheSame x y v w }
    ensures cut { (a b : Content) (today : ℤ) (sheet : Sheet) (x y v w : Option (List ℕ)) (kind : RefusalKind)
        → DifferInHidden a b today → IsSheetWritten x y sheet today a → IsSheetRefused kind v w sheet today b
        → HasFailed kind }
    ensures refused { (a b : Content) (today : ℤ) (sheet : Sheet) (x y v w : Option (List ℕ)) (kind other : RefusalKind)
        → DifferInHidden a b today → IsSheetRefused kind x y sheet today a → IsSheetRefused other v w sheet today b
        → (kind ≡ other) ⊎ (HasFailed kind ⊎ HasFailed other) }
{
    masking::laws::what_is_hidden_changes_nothing();
}

/// What is hidden changes no public export, and no refusal of one.
pub fn what_is_hidden_changes_no_export_that_is_printed()
    ensures printed { (a b : Content) (today : ℤ) (society : List ℕ) (x y v w : Option (List ℕ))
        → DifferInHidden a b today → IsPublished x y today society a → IsPublished v w today society b
        → GotTheSame x y v w }
    ensures cut { (a b : Content) (today : ℤ) (society : List ℕ) (x y v w : Option (List ℕ)) (kind : RefusalKind)
        → DifferInHidden a b today → IsPublished x y today society a → IsPartPublished kind v w today society b
        → HasFailed kind }
    ensures refused { (a b : Content) (today : ℤ) (society : List ℕ) (x y v w : Option (List ℕ))
        (kind other : RefusalKind) → DifferInHidden a b today → IsPartPublished kind x y today society a
        → IsPartPublished other v w today society b → (kind ≡ other) ⊎ (HasFailed kind ⊎ HasFailed other) }
{
    masking::laws::what_is_hidden_changes_nothing();
}

/// What is hidden changes no plain public export that is printed, and nothing of what is said of what it leaves out.
pub fn what_is_hidden_changes_no_plain_export_that_is_printed()
    ensures { (a b : Content) (today : ℤ) (society : List ℕ) (x y v w : Option (List ℕ)) (left_out more : List ℕ)
        → DifferInHidden a b today → IsPlainPublished x y left_out today society a
        → IsPlainPublished v w more today society b → GotTheSame x y v w × (left_out ≡ more) }
{
    archive_output::laws::what_is_hidden_changes_no_plain_export();
    masking::laws::what_is_hidden_changes_nothing();
}

/// What is hidden changes no record that a reading room has.
pub fn what_is_hidden_changes_no_room()
    ensures { (a b : Content) (today : ℤ) (s t : Content) → DifferInHidden a b today → IsShown a today s
        → IsShown b today t → s.records ≡ t.records }
{
    masking::laws::what_is_hidden_changes_nothing();
}

/// What is hidden changes nothing of what a run sends that shows an archive: a sheet, a public export or a reading
/// room. Over two archives that differ only in it the run ends alike, on both streams and by its status, unless one of
/// the two was cut short.
pub fn what_is_hidden_changes_no_run<
    S: Alter,
    R: Read + Device,
    W: Write + Device,
    F: Write + Device,
>()
    ensures { (task : Task) (today : ℤ) (society : List ℕ) (c d : Content) (a b v w : Moment S.Store R W F)
        (status number : ℕ) (shown more : Option Content)
        (first : Ends S.Store R.Read R.Device W.Write W.Device F.Write F.Device task a b status shown)
        (second : Ends S.Store R.Read R.Device W.Write W.Device F.Write F.Device task v w number more)
        → ShowsOn task today
        → DifferInHidden c d today → IsOver S.Store society c a b → IsOver S.Store society d v w
        → IsCutShort first.outcome ⊎ (IsCutShort second.outcome
        ⊎ EndAlike W.Write.contents a b v w first.outcome second.outcome status number shown more) }
{
    what_is_hidden_changes_no_sheet_that_is_printed();
    what_is_hidden_changes_no_export_that_is_printed();
    what_is_hidden_changes_no_room();
}

/// What is hidden changes nothing of what a plain public export sends that is done, on both streams. Of one that is
/// refused with 70 the law says nothing.
pub fn what_is_hidden_changes_no_plain_run<
    S: Alter,
    R: Read + Device,
    W: Write + Device,
    F: Write + Device,
>()
    ensures { (today : ℤ) (society : List ℕ) (c d : Content) (a b v w : Moment S.Store R W F) (status number : ℕ)
        (shown more : Option Content)
        (first : Ends S.Store R.Read R.Device W.Write W.Device F.Write F.Device (task.ExportPublicPlain today) a b
        status shown)
        (second : Ends S.Store R.Read R.Device W.Write W.Device F.Write F.Device (task.ExportPublicPlain today) v w
        number more)
        → DifferInHidden c d today → IsOver S.Store society c a b → IsOver S.Store society d v w
        → OnOk first.outcome (OnOk second.outcome
        (GotTheSame (W.contents a.output) (W.contents b.output) (W.contents v.output) (W.contents w.output)
        × ReportTheSame F.contents F.failed a.faults b.faults v.faults w.faults)) }
{
    what_is_hidden_changes_no_plain_export_that_is_printed();
}
