//! What is reported of the lines that are written.

ghost use Rattle.std.specs.Prelude.{◌≡◌, ◌++◌, ◌≤◌, ◌<◌, [], IfOk, OnOk};
ghost use Rattle.character_sets.specs.Lines.{lines};
ghost use Rattle.conversion_reports.specs.Lines.{has_others as has_others_of, lines_read};
ghost use Rattle.conversion_reports.specs.Report.{
  first_number as first_number_of,
  label_of,
  left_if,
  of_written,
  read_lines,
  read_text,
  tally_line,
  text_if,
};
ghost use Rattle.conversion_reports.specs.declared.kinds.Kind.TheVariants.{Other, Joined, Stray, Replaced, Marked};

use crate::kinds::{Kind, has_others, line_text};
use crate::pushes::{push, push_count, push_number, push_shown};
use crate::reading::{Next, next_line};
use crate::tallies::{Tallies, Tally, tallies_of};
use character_sets::CharacterSet;
use std::alloc::{AllocError, Global};

/// How many lines are shown.
const MAX_LINES: usize = 5;

fn first_number(is_added: bool) -> usize
    ensures is { result ≡ first_number_of is_added }
    ensures few { result ≤ 1 }
{
    if is_added { 0 } else { 1 }
}

/// Adds what is reported of the lines that are written.
pub(crate) fn push_written(
    alloc: Global,
    out: &mut Vec<u8>,
    set: CharacterSet,
    is_added: bool,
    told: &[u16],
) -> Result<(), AllocError>
    ensures { OnOk result (out.new.items ≡ out.old.items ++ of_written set is_added told.now) }
{
    let first = first_number(is_added);
    let found = tallies_of(alloc, set, first, told)?;
    push_others(alloc, out, set, first, told, found.other.count)?;
    push_changes(alloc, out, &found)?;
    Ok(())
}

/// Adds how many lines have other characters than those of ASCII, and the first of them.
fn push_others(
    alloc: Global,
    out: &mut Vec<u8>,
    set: CharacterSet,
    first: usize,
    told: &[u16],
    count: usize,
) -> Result<(), AllocError>
    requires { first ≤ 1 }
    ensures { OnOk result (out.new.items ≡ out.old.items ++ (tally_line Other count []
        ++ read_lines set 5 (lines_read set first [] (lines told.now)))) }
{
    push_count(alloc, out, label(Kind::Other), count, &[])?;
    push_lines(alloc, out, set, first, told)
}

/// Adds what is not as it was read.
fn push_changes(alloc: Global, out: &mut Vec<u8>, found: &Tallies) -> Result<(), AllocError>
    ensures { OnOk result (out.new.items ≡ out.old.items
        ++ (tally_line Joined found.now.joined.count found.now.joined.first.items
        ++ (tally_line Stray found.now.stray.count found.now.stray.first.items
        ++ (tally_line Replaced found.now.replaced.count found.now.replaced.first.items
        ++ tally_line Marked found.now.marked.count found.now.marked.first.items)))) }
{
    push_tally(alloc, out, Kind::Joined, &found.joined)?;
    push_tally(alloc, out, Kind::Stray, &found.stray)?;
    push_tally(alloc, out, Kind::Replaced, &found.replaced)?;
    push_tally(alloc, out, Kind::Marked, &found.marked)
}

fn label(kind: Kind) -> &'static str
    ensures { result.now ≡ label_of kind }
{
    match kind {
        Kind::Other => "lines with other characters than ASCII",
        Kind::Joined => "values cut within a character, which their CONC now has whole",
        Kind::Stray => "bytes that are no UTF-8, read as Windows-1252",
        Kind::Replaced => "U+FFFD, for what could not be read",
        Kind::Marked => "marks of ANSEL before what is no letter",
    }
}

/// Adds how often a kind is in lines, and which of them have it first.
fn push_tally(alloc: Global, out: &mut Vec<u8>, kind: Kind, found: &Tally) -> Result<(), AllocError>
    ensures { OnOk result (out.new.items ≡ out.old.items
        ++ tally_line kind found.now.count found.now.first.items) }
{
    push_count(alloc, out, label(kind), found.count, &found.first)
}

/// Adds the first lines with other characters than those of ASCII, as they are read.
fn push_lines(
    alloc: Global,
    out: &mut Vec<u8>,
    set: CharacterSet,
    first: usize,
    told: &[u16],
) -> Result<(), AllocError>
    requires { first ≤ 1 }
    ensures { OnOk result (out.new.items
        ≡ out.old.items ++ read_lines set 5 (lines_read set first [] (lines told.now))) }
{
    let mut left = MAX_LINES;
    let mut rest = told;
    let mut number = first;
    let mut carry: Vec<u16> = Vec::new(alloc);
    'lines: while !rest.is_empty() {
        if left == 0 {
            return Ok(());
        }
        let Next {
            shown,
            joins: _,
            units,
            number: after,
            carry: next,
            rest: more,
        } = next_line(alloc, set, number, carry, rest)?;
        left = push_if_other(alloc, out, set, left, shown, &units)?;
        number = after;
        carry = next;
        rest = more;
    }
    Ok(())
}

/// Adds a line that has other characters than those of ASCII: how many lines are left to report.
fn push_if_other(
    alloc: Global,
    out: &mut Vec<u8>,
    set: CharacterSet,
    left: usize,
    number: usize,
    units: &[u16],
) -> Result<usize, AllocError>
    requires { 0 < left }
    ensures left { IfOk result (λ after. after ≡ left_if (has_others_of set units.now) left) }
    ensures text { OnOk result (out.new.items
        ≡ out.old.items ++ text_if (has_others_of set units.now) (read_text set number units.now)) }
{
    if !has_others(alloc, set, units)? {
        return Ok(left);
    }
    push_read(alloc, out, set, number, units)?;
    Ok(left - 1)
}

/// Adds a line as it is read.
fn push_read(
    alloc: Global,
    out: &mut Vec<u8>,
    set: CharacterSet,
    number: usize,
    units: &[u16],
) -> Result<(), AllocError>
    ensures { OnOk result (out.new.items ≡ out.old.items ++ read_text set number units.now) }
{
    let text = line_text(alloc, set, units)?;
    push(out, "  ")?;
    push_number(alloc, out, number)?;
    push(out, ": ")?;
    push_shown(out, text.as_bytes())
}
