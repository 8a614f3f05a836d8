//! The line of a record, and what is kept of a merge.

ghost use Rattle.std.specs.Prelude.{◌≡◌, ◌++◌, OnOk, string_bytes};
ghost use Rattle.std.specs.List.{flat_map};
ghost use Rattle.showing.specs.Heads as heads;
ghost use Rattle.showing.specs.Slips as slips;

use crate::fields::push_number;
use archive_state::{Change, Slip};
use record_kinds::Record;
use searching::line_of;
use std::alloc::{AllocError, Global};

pub(crate) fn push_head(
    alloc: Global,
    out: &mut String,
    number: u32,
    record: &Record,
) -> Result<(), AllocError>
    ensures { OnOk result (string_bytes out.new ≡ string_bytes out.old ++ heads.head number «record».now) }
{
    let line = line_of(alloc, number, record)?;
    out.push_str(&line)?;
    out.push_str("\n")
}

pub(crate) fn push_slip(
    alloc: Global,
    out: &mut String,
    number: u32,
    slip: &Slip,
) -> Result<(), AllocError>
    ensures { OnOk result (string_bytes out.new ≡ string_bytes out.old ++ slips.slip_fields number slip.now) }
{
    write!(out, "{number}  slip  ")?;
    push_words(out, slip)?;
    out.push_str("\n")?;
    push_number(out, "merged", slip.gone)?;
    push_number(out, "into", slip.keep)?;
    push_changes(alloc, out, &slip.changes)
}

/// Who was merged into whom, and whether that was undone.
pub(crate) fn push_words(out: &mut String, slip: &Slip) -> Result<(), AllocError>
    ensures { OnOk result (string_bytes out.new ≡ string_bytes out.old ++ slips.slip_words slip.now) }
{
    let gone = slip.gone;
    let keep = slip.keep;
    write!(out, "{gone} into {keep}")?;
    if slip.is_undone {
        out.push_str("  undone")?;
    }
    Ok(())
}

fn push_changes(alloc: Global, out: &mut String, changes: &[Change]) -> Result<(), AllocError>
    ensures { OnOk result (string_bytes out.new ≡ string_bytes out.old ++ flat_map slips.before changes.now) }
{
    'each: for change in changes {
        push_change(alloc, out, change)?;
    }
    Ok(())
}

fn push_change(alloc: Global, out: &mut String, change: &Change) -> Result<(), AllocError>
    ensures { OnOk result (string_bytes out.new ≡ string_bytes out.old ++ slips.before change.now) }
{
    out.push_str("before: ")?;
    push_head(alloc, out, change.number, &change.old)
}
