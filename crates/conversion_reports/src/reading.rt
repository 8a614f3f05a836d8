//! The lines of a file as they are written.

ghost use Rattle.std.specs.Prelude.{◌≡◌, ◌+◌, ◌≤◌, ◌<◌, ◌∷◌, IfOk, length};
ghost use Rattle.character_sets.specs.Lines.{lines};
ghost use Rattle.conversion_reports.specs.Lines.{
  joins_at as joins_at_of,
  lines_read,
  shown_number as shown_number_of,
};

use character_sets::{CharacterSet, Moved, first_line, is_blank, moved_line};
use file_conversion::next_number;
use std::alloc::{AllocError, Global};

/// The first line of what is left of a file, in units of its set, and what comes after it.
#[derive(Drop)]
pub(crate) struct Next<'a> {
    /// The number of the line, as it is shown.
    pub(crate) shown: usize,
    /// Whether its value begins with units of the line before.
    pub(crate) joins: bool,
    pub(crate) units: Vec<u16>,
    /// The number of the line after it, the units in front of the value of that, and the units from it on.
    pub(crate) number: usize,
    pub(crate) carry: Vec<u16>,
    pub(crate) rest: &'a [u16],
}

/// The first line of units, which has this number and these units in front of its value.
pub(crate) fn next_line(
    alloc: Global,
    set: CharacterSet,
    number: usize,
    carry: Vec<u16>,
    units: &[u16],
) -> Result<Next<'_>, AllocError>
    requires some { 0 < length units.now }
    requires room { number < 0xFFFF_FFFF_FFFF_FFFF }
    ensures line { IfOk result (λ n. lines_read set number carry.items (lines units.now)
        ≡ record { number = n.shown; joins = n.joins; units = n.units.items }
        ∷ lines_read set n.number n.carry.items (lines n.rest.now)) }
    ensures number { IfOk result (λ n. n.number ≤ number + 1) }
    ensures shorter { IfOk result (λ n. length n.rest.now < length units.now) }
{
    let cut = first_line(units);
    let joins = joins_at(&carry, cut.body);
    let Moved {
        body,
        ending: _,
        carry: next,
        rest,
    } = moved_line(alloc, set, carry, units)?;
    Ok(Next {
        shown: shown_number(number),
        joins,
        units: body,
        number: next_number(number, cut.body),
        carry: next,
        rest,
    })
}

/// Whether a line has units in front of its value.
fn joins_at(carry: &[u16], body: &[u16]) -> bool
    ensures { result ≡ joins_at_of carry.now body.now }
{
    match carry {
        [] => false,
        _ => !is_blank(body),
    }
}

/// Lines are counted from 1, or from 0 where a line comes after the first that the file had not.
fn shown_number(number: usize) -> usize
    ensures { result ≡ shown_number_of number }
{
    if number == 0 { 1 } else { number }
}
