//! What is doubtful in an archive.

ghost use Rattle.std.specs.Prelude.{◌≡◌, ◌++◌, OnOk};
ghost use Rattle.std.specs.FinMap as map;
ghost use Rattle.std.specs.List.{flat_map};
ghost use Rattle.archive_state.specs.Looks.{CountsFailures, Looked};
ghost use Rattle.archive_state.specs.Views.{On};
ghost use Rattle.doubts.specs.Doubts as doubts;
ghost use Rattle.doubts.specs.Facts as facts;
ghost use Rattle.doubts.specs.Gathered.{seen};

use crate::doubt::{Doubt, lines_of};
use crate::fact::{Fact, push_facts};
use crate::known::{Known, known_by};
use crate::single::push_doubts;
use archive_state::View;
use record_kinds::Record;
use record_text::RefusalKind;
use searching::Line;
use std::alloc::{AllocError, Global};

/// What is doubtful in an archive, a line each, by kind of doubt and number. Each record is read twice, one at a time.
/// Nothing is changed.
pub fn review_archive<V: View>(alloc: Global, view: &mut V) -> Result<Vec<Line>, RefusalKind>
    ensures shows { On V.View view.old view.new (λ c. Looked result (λ lines. lines.items ≡ doubts.review c)) }
    ensures counts { CountsFailures (V.failed view.old) (V.failed view.new) result }
{
    let numbers = view.record_numbers(alloc)?;
    let found = found_in(alloc, view, &numbers)?;
    Ok(lines_of(alloc, &found)?)
}

/// What is doubtful of these records, beside what all of them say.
fn found_in<V: View>(
    alloc: Global,
    view: &mut V,
    numbers: &[u32],
) -> Result<Vec<Doubt>, RefusalKind>
    ensures shows { On V.View view.old view.new (λ c. Looked result
        (λ found. found.items ≡ doubts.found_in c.records numbers.now)) }
    ensures counts { CountsFailures (V.failed view.old) (V.failed view.new) result }
{
    let known = known_of(alloc, view, numbers)?;
    let found = doubts_at(alloc, view, &known, numbers)?;
    Ok(found)
}

// ---- what the records show together

fn known_of<V: View>(alloc: Global, view: &mut V, numbers: &[u32]) -> Result<Known, RefusalKind>
    ensures shows { On V.View view.old view.new (λ c. Looked result
        (λ known. seen known ≡ facts.known_by (facts.facts_in c.records numbers.now))) }
    ensures counts { CountsFailures (V.failed view.old) (V.failed view.new) result }
{
    let facts = facts_at(alloc, view, numbers)?;
    Ok(known_by(alloc, facts)?)
}

fn facts_at<V: View>(alloc: Global, view: &mut V, numbers: &[u32]) -> Result<Vec<Fact>, RefusalKind>
    ensures shows { On V.View view.old view.new (λ c. Looked result
        (λ found. found.items ≡ facts.facts_in c.records numbers.now)) }
    ensures counts { CountsFailures (V.failed view.old) (V.failed view.new) result }
{
    let mut found = Vec::new(alloc);
    'each: for number in numbers {
        push_facts_at(alloc, view, &mut found, *number)?;
    }
    Ok(found)
}

/// Adds what the record of a number says.
fn push_facts_at<V: View>(
    alloc: Global,
    view: &mut V,
    found: &mut Vec<Fact>,
    number: u32,
) -> Result<(), RefusalKind>
    ensures shows { On V.View view.old view.new (λ c. Looked result (λ _. found.new.items
        ≡ found.old.items ++ facts.facts_at (map.get c.records number))) }
    ensures counts { CountsFailures (V.failed view.old) (V.failed view.new) result }
{
    let there = view.record_at(alloc, number)?;
    match push_facts_of(alloc, found, there) {
        Ok(()) => Ok(()),
        Err(_) => Err(RefusalKind::OutOfMemory),
    }
}

/// The record is given back here.
fn push_facts_of(
    alloc: Global,
    found: &mut Vec<Fact>,
    there: Option<Record>,
) -> Result<(), AllocError>
    ensures { OnOk result (found.new.items ≡ found.old.items ++ facts.facts_at there) }
{
    match &there {
        None => Ok(()),
        Some(record) => push_facts(alloc, found, record),
    }
}

// ---- what is doubtful of each

/// What is doubtful of these records.
fn doubts_at<V: View>(
    alloc: Global,
    view: &mut V,
    known: &Known,
    numbers: &[u32],
) -> Result<Vec<Doubt>, RefusalKind>
    ensures shows { On V.View view.old view.new (λ c. Looked result
        (λ found. found.items
        ≡ flat_map (λ n. doubts.doubts_at (seen known.now) n (map.get c.records n)) numbers.now)) }
    ensures counts { CountsFailures (V.failed view.old) (V.failed view.new) result }
{
    let mut found = Vec::new(alloc);
    'each: for number in numbers {
        push_at(alloc, view, known, &mut found, *number)?;
    }
    Ok(found)
}

/// Adds what is doubtful of the record of a number.
fn push_at<V: View>(
    alloc: Global,
    view: &mut V,
    known: &Known,
    found: &mut Vec<Doubt>,
    number: u32,
) -> Result<(), RefusalKind>
    ensures shows { On V.View view.old view.new (λ c. Looked result (λ _. found.new.items
        ≡ found.old.items ++ doubts.doubts_at (seen known.now) number (map.get c.records number))) }
    ensures counts { CountsFailures (V.failed view.old) (V.failed view.new) result }
{
    let there = view.record_at(alloc, number)?;
    match push_found(alloc, known, found, number, there) {
        Ok(()) => Ok(()),
        Err(_) => Err(RefusalKind::OutOfMemory),
    }
}

/// The record is given back here.
fn push_found(
    alloc: Global,
    known: &Known,
    found: &mut Vec<Doubt>,
    number: u32,
    there: Option<Record>,
) -> Result<(), AllocError>
    ensures { OnOk result (found.new.items
        ≡ found.old.items ++ doubts.doubts_at (seen known.now) number there) }
{
    match &there {
        None => Ok(()),
        Some(record) => push_doubts(alloc, found, number, known, record),
    }
}
