//! The lines of a report.

ghost use Rattle.std.specs.Prelude.{◌≡◌, OnOk};
ghost use Rattle.import_definitions.specs.Report.{in_order};

use receipts::ReportLine;
use std::alloc::AllocError;

/// Puts what is reported in the order of lines. What is said of one line stays in its order.
pub(crate) fn put_in_order(report: &mut Vec<ReportLine>) -> Result<(), AllocError>
    ensures { OnOk result (report.new.items ≡ in_order report.old.items) }
{
    report.sort_by_key(|said| said.line)?;
    Ok(())
}
