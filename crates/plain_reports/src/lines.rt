//! The lines of a report.

ghost use Rattle.std.specs.Prelude.{◌≡◌, ◌++◌, length, IfOk, OnOk, string_bytes};
ghost use Rattle.plain_reports.specs.Texts as texts;

use archive_state::State;
use plain_export::{our_own_records, places_with_lines, second_sexes, unnamed_places};
use std::alloc::{AllocError, Global};

/// What a plain export of a state leaves out: for each kind a line that says how many.
pub fn left_out_text(alloc: Global, state: &State) -> Result<String, AllocError>
    ensures { IfOk result (λ s. string_bytes s ≡ texts.left_out_text state.now.records) }
{
    let mut out = String::new(alloc);
    push_kind(
        &mut out,
        places_with_lines(alloc, state)?,
        "place with lines of its own",
        "places with lines of their own",
    )?;
    push_kind(
        &mut out,
        unnamed_places(alloc, state)?,
        "place that nothing names",
        "places that nothing names",
    )?;
    push_kind(
        &mut out,
        our_own_records(alloc, state)?,
        "record with a tag of our own",
        "records with a tag of our own",
    )?;
    push_kind(
        &mut out,
        second_sexes(alloc, state)?,
        "second sex of a person",
        "second sexes of persons",
    )?;
    Ok(out)
}

/// Appends how many are left out of a kind, in the words for one of it or for several.
fn push_kind(
    out: &mut String,
    left_out: Vec<u32>,
    one: &str,
    several: &str,
) -> Result<(), AllocError>
    ensures { OnOk result (string_bytes out.new
        ≡ string_bytes out.old ++ texts.kind_line (length left_out.items) one.now several.now) }
{
    let count = left_out.len();
    let what = words_for(count, one, several);
    push_line(out, count, what)
}

/// Appends a number of what is left out, if it is not 0.
fn push_line(out: &mut String, count: usize, what: &str) -> Result<(), AllocError>
    ensures { OnOk result (string_bytes out.new ≡ string_bytes out.old ++ texts.left_line count what.now) }
{
    if count > 0 {
        write!(out, "  left out: {count} {what}\n")?;
    }
    Ok(())
}

/// The words for one, or for another number.
fn words_for<'a>(count: usize, one: &'a str, several: &'a str) -> &'a str
    ensures { result.now ≡ texts.words_for count one.now several.now }
{
    if count == 1 { one } else { several }
}
