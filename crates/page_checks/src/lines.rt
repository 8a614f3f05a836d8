//! What is found on a page as lines.

ghost use Rattle.std.specs.Prelude.{◌≡◌, ◌++◌, IfOk, OnOk, count_by, encode_utf8_all, chars, string_bytes, take};
ghost use Rattle.std.specs.List.{flat_map};
ghost use Rattle.page_checks.specs.Findings.{is_doubtful as doubtful_test, is_wrong as wrong_test};
ghost use Rattle.page_checks.specs.Lines as lines;

use crate::findings::{CheckedRow, Doubt, Finding, What, is_doubtful, is_wrong};
use searching::shown;
use std::alloc::{AllocError, Global};

/// The most characters of a column's name or a cell that are printed.
const MOST: usize = 60;

/// A line for all that is found, and at the end how many rows there are, and how many are wrong and doubtful.
pub(crate) fn text_of(alloc: Global, rows: &[CheckedRow]) -> Result<String, AllocError>
    ensures { IfOk result (λ s. string_bytes s ≡ lines.text rows.now) }
{
    let mut out = String::new(alloc);
    push_rows(alloc, &mut out, rows)?;
    push_sum(
        &mut out,
        rows.len(),
        count_wrong(rows),
        count_doubtful(rows),
    )?;
    Ok(out)
}

/// How many rows are wrong.
pub(crate) fn count_wrong(rows: &[CheckedRow]) -> usize
    ensures { result ≡ count_by wrong_test rows.now }
{
    rows.iter().filter(|row| is_wrong(*row)).count()
}

fn count_doubtful(rows: &[CheckedRow]) -> usize
    ensures { result ≡ count_by doubtful_test rows.now }
{
    rows.iter().filter(|row| is_doubtful(*row)).count()
}

fn push_sum(out: &mut String, rows: usize, wrong: usize, doubtful: usize) -> Result<(), AllocError>
    ensures { OnOk result (string_bytes out.new ≡ string_bytes out.old ++ lines.sum rows wrong doubtful) }
{
    write!(out, "{rows} rows, {wrong} wrong, {doubtful} doubtful\n")
}

fn push_rows(alloc: Global, out: &mut String, rows: &[CheckedRow]) -> Result<(), AllocError>
    ensures { OnOk result (string_bytes out.new ≡ string_bytes out.old ++ flat_map lines.row_lines rows.now) }
{
    'each: for row in rows {
        push_row(alloc, out, row)?;
    }
    Ok(())
}

fn push_row(alloc: Global, out: &mut String, row: &CheckedRow) -> Result<(), AllocError>
    ensures { OnOk result (string_bytes out.new ≡ string_bytes out.old ++ lines.row_lines row.now) }
{
    push_findings(alloc, out, row.number, row.findings.as_slice())
}

fn push_findings(
    alloc: Global,
    out: &mut String,
    row: usize,
    findings: &[Finding],
) -> Result<(), AllocError>
    ensures { OnOk result (string_bytes out.new ≡ string_bytes out.old ++ flat_map (lines.line row) findings.now) }
{
    'each: for finding in findings {
        push_line(alloc, out, row, finding)?;
    }
    Ok(())
}

/// Adds the line of what is found.
pub(crate) fn push_line(
    alloc: Global,
    out: &mut String,
    row: usize,
    finding: &Finding,
) -> Result<(), AllocError>
    ensures { OnOk result (string_bytes out.new ≡ string_bytes out.old ++ lines.line row finding.now) }
{
    write!(out, "row {row}: ")?;
    push_what(alloc, out, finding.what, finding.column.as_str())?;
    push_part(alloc, out, finding.cell.as_str())?;
    out.push_str("\n")
}

/// Adds the number and the name of a refusal with the column, or the column and the word of a doubt.
fn push_what(alloc: Global, out: &mut String, what: What, column: &str) -> Result<(), AllocError>
    ensures { OnOk result (string_bytes out.new ≡ string_bytes out.old ++ lines.said what column.now) }
{
    match what {
        What::Fault(kind) => push_refused(alloc, out, kind.number(), kind.name(), column),
        What::Refused(kind) => push_refused(alloc, out, kind.number(), kind.name(), column),
        What::Doubtful(doubt) => push_doubt(alloc, out, doubt, column),
    }
}

fn push_refused(
    alloc: Global,
    out: &mut String,
    number: u8,
    name: &str,
    column: &str,
) -> Result<(), AllocError>
    ensures { OnOk result (string_bytes out.new ≡ string_bytes out.old ++ lines.refused number name.now column.now) }
{
    write!(out, "{number} ")?;
    out.push_str(name)?;
    push_part(alloc, out, column)
}

fn push_doubt(alloc: Global, out: &mut String, doubt: Doubt, column: &str) -> Result<(), AllocError>
    ensures { OnOk result (string_bytes out.new ≡ string_bytes out.old ++ lines.doubted doubt column.now) }
{
    out.push_str("doubt")?;
    push_part(alloc, out, column)?;
    out.push_str(": ")?;
    out.push_str(doubt_word(doubt))
}

fn doubt_word(doubt: Doubt) -> &'static str
    ensures { result.now ≡ lines.doubt_word doubt }
{
    match doubt {
        Doubt::Words => "words",
        Doubt::NoPage => "no page",
        Doubt::Page => "page",
        Doubt::Long => "long",
        Doubt::NewPlace => "new place",
        Doubt::Like => "like",
    }
}

/// Adds a text after what is before it, unless it is empty.
fn push_part(alloc: Global, out: &mut String, text: &str) -> Result<(), AllocError>
    ensures { OnOk result (string_bytes out.new ≡ string_bytes out.old ++ lines.part text.now) }
{
    if text.is_empty() {
        return Ok(());
    }
    out.push_str(": ")?;
    push_cut(alloc, out, text)
}

/// Adds a text as it is printed, of a long one the first characters.
pub(crate) fn push_cut(alloc: Global, out: &mut String, text: &str) -> Result<(), AllocError>
    ensures { OnOk result (string_bytes out.new ≡ string_bytes out.old ++ lines.cut text.now) }
{
    let first = beginning(alloc, text)?;
    let printed = shown(alloc, &first)?;
    out.push_str(&printed)
}

/// The first characters of a text.
fn beginning(alloc: Global, text: &str) -> Result<String, AllocError>
    ensures { IfOk result (λ s. string_bytes s ≡ encode_utf8_all (take 60 (chars text.now))) }
{
    text.chars().take(MOST).collect(alloc)
}
