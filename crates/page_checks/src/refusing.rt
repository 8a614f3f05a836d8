//! What is printed of a page that is to be entered and is refused.

ghost use Rattle.std.specs.Prelude.{◌≡◌, IfOk, string_bytes};
ghost use Rattle.page_checks.specs.Refusing as refusing;

use crate::findings::{Finding, What, field};
use crate::lines::push_line;
use crate::unread::{fault_lines, push_refusal};
use record_text::RefusalKind;
use std::alloc::{AllocError, Global};
use table_pages::{FaultKind, PageFault};

/// The line of a cell that an archive refuses.
pub fn refused_line(
    alloc: Global,
    row: usize,
    kind: RefusalKind,
    column: &str,
    cell: &str,
) -> Result<String, AllocError>
    ensures { IfOk result (λ s. string_bytes s ≡ refusing.refused_line row kind column.now cell.now) }
{
    let mut out = String::new(alloc);
    let finding = finding(alloc, What::Refused(kind), column, cell)?;
    push_line(alloc, &mut out, row, &finding)?;
    Ok(out)
}

/// The lines of the first fault of a page: of a cell its line, as of a page that is looked over, and that of the
/// refusal; of the sheet as `fault_lines`.
pub fn page_lines(alloc: Global, fault: &PageFault) -> Result<String, AllocError>
    ensures { IfOk result (λ s. string_bytes s ≡ refusing.page_lines fault.now) }
{
    if is_of_sheet(fault.kind) {
        return fault_lines(alloc, fault);
    }
    row_lines(alloc, fault)
}

fn row_lines(alloc: Global, fault: &PageFault) -> Result<String, AllocError>
    ensures { IfOk result (λ s. string_bytes s ≡ refusing.row_lines fault.now) }
{
    let mut out = String::new(alloc);
    let column = fault.column.as_str();
    let finding = finding(alloc, What::Fault(fault.kind), column, fault.cell.as_str())?;
    push_line(alloc, &mut out, fault.row, &finding)?;
    push_refusal(&mut out, fault.kind, fault.row)?;
    Ok(out)
}

fn finding(alloc: Global, what: What, column: &str, cell: &str) -> Result<Finding, AllocError>
    ensures { IfOk result (λ f. f ≡ refusing.finding what column.now cell.now) }
{
    let column = field(alloc, column)?;
    let cell = field(alloc, cell)?;
    Ok(Finding { what, column, cell })
}

/// Whether the fault is of the sheet, and of no cell.
fn is_of_sheet(kind: FaultKind) -> bool
    ensures { result ≡ refusing.is_of_sheet kind }
{
    matches!(
        kind,
        FaultKind::NotUtf8
            | FaultKind::OpenQuote
            | FaultKind::UnknownColumn
            | FaultKind::RepeatedColumn
            | FaultKind::MissingColumn
    )
}
