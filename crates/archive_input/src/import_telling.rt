//! The text that tells of an import.

ghost use Rattle.std.specs.Prelude.{◌≡◌, ◌++◌, IfOk, OnOk, string_bytes};
ghost use Rattle.std.specs.List.{flat_map};
ghost use Rattle.archive_input.specs.Telling as telling;

use receipts::{Answer, Report, ReportLine};
use std::alloc::{AllocError, Global};

/// How many records were made, with the number of the first, and then a line for each line of the report. Refused only
/// if out of memory.
pub fn import_text(alloc: Global, answer: Answer, report: &Report) -> Result<String, AllocError>
    ensures { IfOk result (λ text. string_bytes text ≡ telling.import_text answer report.now) }
{
    let mut text = count_line(alloc, answer)?;
    push_lines(alloc, &mut text, report.lines.as_slice())?;
    Ok(text)
}

/// How many records were made, and the number of the first.
fn count_line(alloc: Global, answer: Answer) -> Result<String, AllocError>
    ensures { IfOk result (λ line. string_bytes line ≡ telling.count_text answer) }
{
    let Answer { first, count } = answer;
    format!(in alloc; "imported {count} records, first {first}\n")
}

/// Appends a line for each line of a report. Refused only if out of memory.
pub fn push_lines(alloc: Global, text: &mut String, lines: &[ReportLine]) -> Result<(), AllocError>
    ensures { OnOk result (string_bytes text.new ≡ string_bytes text.old ++ flat_map telling.line_text lines.now) }
{
    for line in lines {
        text.push_str(report_line(alloc, *line)?.as_str())?;
    }
    Ok(())
}

/// A line of the file, and what became of it.
fn report_line(alloc: Global, said: ReportLine) -> Result<String, AllocError>
    ensures { IfOk result (λ text. string_bytes text ≡ telling.line_text said) }
{
    let line = said.line;
    let word = said.word.as_str();
    format!(in alloc; "line {line}: {word}\n")
}
