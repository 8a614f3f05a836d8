//! What is found on a page.

ghost use Rattle.std.specs.Prelude.{◌≡◌, ◌++◌, IfOk, OnOk};
ghost use Rattle.page_checks.specs.Findings as findings;

use commands::Field;
use record_text::RefusalKind;
use std::alloc::{AllocError, Global};
use std::marker::Model;
use table_pages::FaultKind;

/// Why a cell is doubtful.
#[derive(Clone, Copy, Debug, PartialEq, Eq)]
pub(crate) enum Doubt {
    /// A date that has no days.
    Words,
    /// A page that is empty.
    NoPage,
    /// A page that looks like a day, or like a number with `.0` after it.
    Page,
    /// A text of more than 20 lines.
    Long,
    /// A place that is to be made.
    NewPlace,
    /// A place of the archive that one that is to be made is like.
    Like,
}

/// What is found.
#[derive(Clone, Copy, Debug, PartialEq, Eq)]
pub(crate) enum What {
    /// A cell that is no part of an entry.
    Fault(FaultKind),
    /// What the archive would refuse.
    Refused(RefusalKind),
    Doubtful(Doubt),
}

/// What is found in a row: the name of the column and the cell where they are to blame, else empty.
#[derive(Debug, Drop)]
pub(crate) struct Finding {
    pub what: What,
    pub column: Field,
    pub cell: Field,
}

/// What is found in a row, in the order of its columns. Contracts see the list.
#[derive(Debug, Drop)]
pub(crate) struct Findings {
    findings: Vec<Finding>,
}

impl Model for Findings {
    ghost use Rattle.std.specs.Prelude.{List};
    ghost use Rattle.page_checks.specs.declared.findings.Finding as finding;

    ghost Value = { List finding.Finding };

    ghost view = { λ a. a.findings.items };
}

impl Findings {
    pub(crate) fn new(findings: Vec<Finding>) -> Findings
        ensures { result ≡ findings.items }
    {
        Findings { findings }
    }

    pub(crate) fn as_slice(&self) -> &[Finding]
        ensures { result.now ≡ self.now }
    {
        self.findings.as_slice()
    }
}

/// A row that was looked at: its number, and what was found.
#[derive(Debug, Drop)]
pub(crate) struct CheckedRow {
    pub number: usize,
    pub findings: Findings,
}

/// Whether the row is wrong.
pub(crate) fn is_wrong(row: &CheckedRow) -> bool
    ensures { result ≡ findings.is_wrong row.now }
{
    has_wrong(row.findings.as_slice())
}

fn has_wrong(found: &[Finding]) -> bool
    ensures { result ≡ findings.has_wrong found.now }
{
    found.iter().any(|f| !is_doubt(f.what))
}

/// Whether something in the row is doubtful.
pub(crate) fn is_doubtful(row: &CheckedRow) -> bool
    ensures { result ≡ findings.is_doubtful row.now }
{
    has_doubt(row.findings.as_slice())
}

fn has_doubt(found: &[Finding]) -> bool
    ensures { result ≡ findings.has_doubt found.now }
{
    found.iter().any(|f| is_doubt(f.what))
}

fn is_doubt(what: What) -> bool
    ensures { result ≡ findings.is_doubt what }
{
    match what {
        What::Doubtful(_) => true,
        _ => false,
    }
}

/// Adds what is found in a cell, if something is.
pub(crate) fn push_maybe(
    alloc: Global,
    out: &mut Vec<Finding>,
    what: Option<What>,
    column: &str,
    cell: &str,
) -> Result<(), AllocError>
    ensures { OnOk result (out.new.items ≡ out.old.items ++ findings.maybe what column.now cell.now) }
{
    match what {
        Some(what) => push_found(alloc, out, what, column, cell),
        None => Ok(()),
    }
}

/// Adds what is found in a cell.
pub(crate) fn push_found(
    alloc: Global,
    out: &mut Vec<Finding>,
    what: What,
    column: &str,
    cell: &str,
) -> Result<(), AllocError>
    ensures { OnOk result (out.new.items ≡ out.old.items ++ findings.found what column.now cell.now) }
{
    let column = field(alloc, column)?;
    let cell = field(alloc, cell)?;
    out.push(Finding { what, column, cell })?;
    Ok(())
}

pub(crate) fn field(alloc: Global, words: &str) -> Result<Field, AllocError>
    ensures { IfOk result (λ f. f ≡ words.now) }
{
    let string = String::from_str(alloc, words)?;
    Ok(Field::new(string))
}
