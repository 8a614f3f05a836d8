//! What is doubtful of a family or an event beside births and burials.

ghost use Rattle.std.specs.Prelude.{◌≡◌, ◌++◌, IfOk, OnOk, string_bytes};
ghost use Rattle.std.specs.List.{flat_map};
ghost use Rattle.date_spans.specs.Spans.{date_in};
ghost use Rattle.doubts.specs.Doubts as doubts;
ghost use Rattle.doubts.specs.Facts as facts;
ghost use Rattle.doubts.specs.Gathered.{seen};

use crate::doubt::{Doubt, Kind, push_doubt};
use crate::fact::dated;
use crate::known::Known;
use gedcom_date::Span;
use record_kinds::{Child, Family, Partner, Record};
use std::alloc::{AllocError, Global};

// ---- children who are older than a parent

/// Adds the children of a family who are older than a parent.
pub(crate) fn push_older(
    alloc: Global,
    found: &mut Vec<Doubt>,
    number: u32,
    known: &Known,
    family: &Family,
) -> Result<(), AllocError>
    ensures { OnOk result (found.new.items ≡ found.old.items
        ++ doubts.older_doubts (seen known.now) number family.now) }
{
    let day = latest_birth(known, &family.partners);
    push_children(alloc, found, number, known, day, &family.children)
}

/// The last of the days before which one of them was not born.
fn latest_birth(known: &Known, partners: &[Partner]) -> Option<i32>
    ensures { result ≡ doubts.latest_birth (seen known.now) partners.now }
{
    let mut day = None;
    'each: for partner in partners {
        day = later(day, first_day(known.born(partner.person)));
    }
    day
}

fn push_children(
    alloc: Global,
    found: &mut Vec<Doubt>,
    number: u32,
    known: &Known,
    day: Option<i32>,
    children: &[Child],
) -> Result<(), AllocError>
    ensures { OnOk result (found.new.items ≡ found.old.items
        ++ flat_map (doubts.child_doubts (seen known.now) number day) children.now) }
{
    'each: for child in children {
        push_child(alloc, found, number, known, day, child)?;
    }
    Ok(())
}

fn push_child(
    alloc: Global,
    found: &mut Vec<Doubt>,
    number: u32,
    known: &Known,
    day: Option<i32>,
    child: &Child,
) -> Result<(), AllocError>
    ensures { OnOk result (found.new.items ≡ found.old.items
        ++ doubts.child_doubts (seen known.now) number day child.now) }
{
    if is_before(last_day(known.born(child.person)), day) {
        let words = older_words(alloc, child.person)?;
        push_doubt(found, Kind::Older, number, words)?;
    }
    Ok(())
}

fn older_words(alloc: Global, person: u32) -> Result<String, AllocError>
    ensures { IfOk result (λ s. string_bytes s ≡ doubts.older_words person) }
{
    format!(in alloc; "older than a parent: {person}")
}

// ---- events before the birth or after the burial of their owner

/// Adds whether an event is before the birth or after the burial of its owner.
pub(crate) fn push_outside(
    alloc: Global,
    found: &mut Vec<Doubt>,
    number: u32,
    known: &Known,
    owner: u32,
    event: &Record,
) -> Result<(), AllocError>
    ensures { OnOk result (found.new.items ≡ found.old.items
        ++ doubts.outside_doubts (seen known.now) number owner (facts.dated (date_in event.now))) }
{
    let span = dated(alloc, event)?;
    push_before(alloc, found, number, span, known.born(owner))?;
    push_after(alloc, found, number, span, known.buried(owner))
}

fn push_before(
    alloc: Global,
    found: &mut Vec<Doubt>,
    number: u32,
    event: Option<Span>,
    birth: Option<Span>,
) -> Result<(), AllocError>
    ensures { OnOk result (found.new.items ≡ found.old.items ++ doubts.before_doubts number event birth) }
{
    let test = is_before(last_day(event), first_day(birth));
    push_if(alloc, found, number, test, "before birth")
}

fn push_after(
    alloc: Global,
    found: &mut Vec<Doubt>,
    number: u32,
    event: Option<Span>,
    burial: Option<Span>,
) -> Result<(), AllocError>
    ensures { OnOk result (found.new.items ≡ found.old.items ++ doubts.after_doubts number event burial) }
{
    let test = is_before(last_day(burial), first_day(event));
    push_if(alloc, found, number, test, "after burial")
}

/// Adds what is said of an event, if the test holds.
fn push_if(
    alloc: Global,
    found: &mut Vec<Doubt>,
    number: u32,
    test: bool,
    said: &str,
) -> Result<(), AllocError>
    ensures { OnOk result (found.new.items ≡ found.old.items ++ doubts.outside_if number test said.now) }
{
    if test {
        let words = String::from_str(alloc, said)?;
        push_doubt(found, Kind::Outside, number, words)?;
    }
    Ok(())
}

// ---- days

fn first_day(span: Option<Span>) -> Option<i32>
    ensures { result ≡ doubts.first_day span }
{
    match span {
        None => None,
        Some(span) => span.lo,
    }
}

fn last_day(span: Option<Span>) -> Option<i32>
    ensures { result ≡ doubts.last_day span }
{
    match span {
        None => None,
        Some(span) => span.hi,
    }
}

/// The one is before the other, where both are there.
fn is_before(a: Option<i32>, b: Option<i32>) -> bool
    ensures { result ≡ doubts.is_before a b }
{
    match (a, b) {
        (Some(a), Some(b)) => a < b,
        _ => false,
    }
}

fn later(a: Option<i32>, b: Option<i32>) -> Option<i32>
    ensures { result ≡ doubts.later a b }
{
    match (a, b) {
        (_, None) => a,
        (None, _) => b,
        (Some(first), Some(second)) => { if first < second { b } else { a } }
    }
}
