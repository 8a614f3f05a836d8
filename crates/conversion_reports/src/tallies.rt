//! How often a kind is in the lines of a file, and which lines have it first.

ghost use Rattle.std.specs.Prelude.{◌≡◌, ◌+◌, ◌≤◌, ◌<◌, [], IfOk, OnOk, length, min};
ghost use Rattle.character_sets.specs.Lines.{lines};
ghost use Rattle.conversion_reports.specs.Lines.{
  Goes,
  IsOneMore,
  IsTally,
  lines_read,
  most_counted,
  with_line,
};
ghost use Rattle.conversion_reports.specs.declared.kinds.Kind.TheVariants.{Other, Joined, Stray, Replaced, Marked};

use crate::kinds::{Counts, counts_in};
use crate::reading::{Next, next_line};
use character_sets::{CharacterSet, first_line};
use file_conversion::{is_plain, next_number};
use std::alloc::{AllocError, Global};

/// What was counted of a kind in lines.
#[derive(Drop)]
pub(crate) struct Tally {
    pub(crate) count: usize,
    /// The numbers of the first five lines that have it.
    pub(crate) first: Vec<usize>,
}

/// How many lines are named.
const MAX_FIRST: usize = 5;

impl Tally {
    ghost use Rattle.std.specs.Prelude.{◌≡◌, ◌+◌, OnOk, min};
    ghost use Rattle.conversion_reports.specs.Lines.{most_counted, with_line};

    /// One more line, which has it so often.
    fn add(&mut self, line: usize, often: usize) -> Result<(), AllocError>
        ensures count { OnOk result (self.new.count ≡ min (self.old.count + often) most_counted) }
        ensures first { OnOk result (self.new.first.items ≡ with_line self.old.first.items line often) }
    {
        if 0 < often && self.first.len() < MAX_FIRST {
            self.first.push(line)?;
        }
        self.count = self.count.saturating_add(often);
        Ok(())
    }
}

/// What was counted of each kind in lines.
#[derive(Drop)]
pub(crate) struct Tallies {
    pub(crate) other: Tally,
    pub(crate) joined: Tally,
    pub(crate) stray: Tally,
    pub(crate) replaced: Tally,
    pub(crate) marked: Tally,
}

fn no_tally(alloc: Global) -> Tally
    ensures count { result.count ≡ 0 }
    ensures first { result.first.items ≡ [] }
{
    Tally {
        count: 0,
        first: Vec::new(alloc),
    }
}

/// One more line, which has each kind so often.
fn add(all: &mut Tallies, line: usize, often: Counts) -> Result<(), AllocError>
    ensures other { OnOk result (IsOneMore all.old.other.count all.old.other.first.items line often.other
        all.new.other.count all.new.other.first.items) }
    ensures joined { OnOk result (IsOneMore all.old.joined.count all.old.joined.first.items line often.joined
        all.new.joined.count all.new.joined.first.items) }
    ensures stray { OnOk result (IsOneMore all.old.stray.count all.old.stray.first.items line often.stray
        all.new.stray.count all.new.stray.first.items) }
    ensures replaced { OnOk result (IsOneMore all.old.replaced.count all.old.replaced.first.items line
        often.replaced all.new.replaced.count all.new.replaced.first.items) }
    ensures marked { OnOk result (IsOneMore all.old.marked.count all.old.marked.first.items line often.marked
        all.new.marked.count all.new.marked.first.items) }
{
    all.other.add(line, often.other)?;
    all.joined.add(line, often.joined)?;
    all.stray.add(line, often.stray)?;
    all.replaced.add(line, often.replaced)?;
    all.marked.add(line, often.marked)
}

/// How often each kind is in the lines of units, of which the first has this number, and which lines have it first.
/// The lines are read once.
pub(crate) fn tallies_of(
    alloc: Global,
    set: CharacterSet,
    first: usize,
    units: &[u16],
) -> Result<Tallies, AllocError>
    requires { first ≤ 1 }
    ensures other { IfOk result (λ t. IsTally Other set (lines_read set first [] (lines units.now))
        t.other.count t.other.first.items) }
    ensures joined { IfOk result (λ t. IsTally Joined set (lines_read set first [] (lines units.now))
        t.joined.count t.joined.first.items) }
    ensures stray { IfOk result (λ t. IsTally Stray set (lines_read set first [] (lines units.now))
        t.stray.count t.stray.first.items) }
    ensures replaced { IfOk result (λ t. IsTally Replaced set (lines_read set first [] (lines units.now))
        t.replaced.count t.replaced.first.items) }
    ensures marked { IfOk result (λ t. IsTally Marked set (lines_read set first [] (lines units.now))
        t.marked.count t.marked.first.items) }
{
    let mut tallies = Tallies {
        other: no_tally(alloc),
        joined: no_tally(alloc),
        stray: no_tally(alloc),
        replaced: no_tally(alloc),
        marked: no_tally(alloc),
    };
    let mut rest = units;
    let mut number = first;
    let mut carry: Vec<u16> = Vec::new(alloc);
    'lines: while !rest.is_empty() {
        let (after, next, more) = add_next(alloc, &mut tallies, set, number, carry, rest)?;
        number = after;
        carry = next;
        rest = more;
    }
    Ok(tallies)
}

/// Adds the first line of units: the number of the next one, the units in front of its value, and the units from it on.
/// A line of ASCII alone has nothing to count.
fn add_next<'a>(
    alloc: Global,
    all: &mut Tallies,
    set: CharacterSet,
    number: usize,
    carry: Vec<u16>,
    units: &'a [u16],
) -> Result<(usize, Vec<u16>, &'a [u16]), AllocError>
    requires some { 0 < length units.now }
    requires room { number < 0xFFFF_FFFF_FFFF_FFFF }
    ensures other { IfOk result (λ next. Goes Other set all.old.other.count all.old.other.first.items
        (lines_read set number carry.items (lines units.now)) all.new.other.count
        all.new.other.first.items (lines_read set next.0 next.1.items (lines next.2.now))) }
    ensures joined { IfOk result (λ next. Goes Joined set all.old.joined.count all.old.joined.first.items
        (lines_read set number carry.items (lines units.now)) all.new.joined.count
        all.new.joined.first.items (lines_read set next.0 next.1.items (lines next.2.now))) }
    ensures stray { IfOk result (λ next. Goes Stray set all.old.stray.count all.old.stray.first.items
        (lines_read set number carry.items (lines units.now)) all.new.stray.count
        all.new.stray.first.items (lines_read set next.0 next.1.items (lines next.2.now))) }
    ensures replaced { IfOk result (λ next. Goes Replaced set all.old.replaced.count
        all.old.replaced.first.items (lines_read set number carry.items (lines units.now))
        all.new.replaced.count all.new.replaced.first.items (lines_read set next.0 next.1.items (lines next.2.now))) }
    ensures marked { IfOk result (λ next. Goes Marked set all.old.marked.count all.old.marked.first.items
        (lines_read set number carry.items (lines units.now)) all.new.marked.count
        all.new.marked.first.items (lines_read set next.0 next.1.items (lines next.2.now))) }
    ensures number { IfOk result (λ next. next.0 ≤ number + 1) }
    ensures shorter { IfOk result (λ next. length next.2.now < length units.now) }
{
    let cut = first_line(units);
    if is_plain(&carry, cut.body) {
        return Ok((next_number(number, cut.body), carry, cut.rest));
    }
    add_moved(alloc, all, set, number, carry, units)
}

/// Adds the first line of units as `add_next` does, whatever it has.
fn add_moved<'a>(
    alloc: Global,
    all: &mut Tallies,
    set: CharacterSet,
    number: usize,
    carry: Vec<u16>,
    units: &'a [u16],
) -> Result<(usize, Vec<u16>, &'a [u16]), AllocError>
    requires some { 0 < length units.now }
    requires room { number < 0xFFFF_FFFF_FFFF_FFFF }
    ensures other { IfOk result (λ next. Goes Other set all.old.other.count all.old.other.first.items
        (lines_read set number carry.items (lines units.now)) all.new.other.count
        all.new.other.first.items (lines_read set next.0 next.1.items (lines next.2.now))) }
    ensures joined { IfOk result (λ next. Goes Joined set all.old.joined.count all.old.joined.first.items
        (lines_read set number carry.items (lines units.now)) all.new.joined.count
        all.new.joined.first.items (lines_read set next.0 next.1.items (lines next.2.now))) }
    ensures stray { IfOk result (λ next. Goes Stray set all.old.stray.count all.old.stray.first.items
        (lines_read set number carry.items (lines units.now)) all.new.stray.count
        all.new.stray.first.items (lines_read set next.0 next.1.items (lines next.2.now))) }
    ensures replaced { IfOk result (λ next. Goes Replaced set all.old.replaced.count
        all.old.replaced.first.items (lines_read set number carry.items (lines units.now))
        all.new.replaced.count all.new.replaced.first.items (lines_read set next.0 next.1.items (lines next.2.now))) }
    ensures marked { IfOk result (λ next. Goes Marked set all.old.marked.count all.old.marked.first.items
        (lines_read set number carry.items (lines units.now)) all.new.marked.count
        all.new.marked.first.items (lines_read set next.0 next.1.items (lines next.2.now))) }
    ensures number { IfOk result (λ next. next.0 ≤ number + 1) }
    ensures shorter { IfOk result (λ next. length next.2.now < length units.now) }
{
    let Next {
        shown,
        joins,
        units: line,
        number: after,
        carry: next,
        rest: more,
    } = next_line(alloc, set, number, carry, units)?;
    let often = counts_in(alloc, set, joins, &line)?;
    add(all, shown, often)?;
    Ok((after, next, more))
}
