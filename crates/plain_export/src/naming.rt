//! Places that nothing names.

ghost use Rattle.std.specs.Prelude.{◌≡◌, ◌==◌, ℕ, IfOk, OnOk, option_copied};
ghost use Rattle.std.specs.BTreeSet as set;
ghost use Rattle.std.specs.FinMap.{keys};
ghost use Rattle.std.specs.List.{filter};
ghost use Rattle.std.specs.Ordering.{nat_cmp};
ghost use Rattle.plain_export.specs.LeftOut as leaving;

use archive_state::State;
use record_kinds::{EventPlace, Record};
use std::alloc::{AllocError, Global};
use std::collections::BTreeSet;

/// Puts a number.
fn put(number: u32, named: &mut BTreeSet<u32>) -> Result<(), AllocError>
    ensures { OnOk result (leaving.Gets named.old named.new (λ n. number == n)) }
{
    named.insert(number)?;
    Ok(())
}

/// Puts the number of a place, if there is one.
#[tactic(auto, using(crate::proofs::Getting::none_got))]
fn put_maybe(place: Option<u32>, named: &mut BTreeSet<u32>) -> Result<(), AllocError>
    ensures { OnOk result (leaving.Gets named.old named.new (λ n. leaving.is_it n place)) }
{
    match place {
        None => Ok(()),
        Some(number) => put(number, named),
    }
}

/// Puts the number of the place of an event, if there is one.
#[tactic(auto, using(crate::proofs::Getting::none_got))]
fn put_place(place: &Option<EventPlace>, named: &mut BTreeSet<u32>) -> Result<(), AllocError>
    ensures { OnOk result (leaving.Gets named.old named.new (λ n. leaving.is_there n place.now)) }
{
    match place {
        None => Ok(()),
        Some(place) => put(place.place, named),
    }
}

/// Puts the place that a record names, if there is one.
#[tactic(auto, using(crate::proofs::Getting::none_got))]
fn put_found(found: Option<&Record>, named: &mut BTreeSet<u32>) -> Result<(), AllocError>
    ensures { OnOk result (leaving.Gets named.old named.new
        (λ n. leaving.names_place n (option_copied found.entry))) }
{
    match found {
        Some(Record::Event(event)) => put_place(&event.place, named),
        Some(Record::Entry(entry)) => put_maybe(entry.place, named),
        Some(Record::Place(place)) => put_maybe(place.parent, named),
        _ => Ok(()),
    }
}

/// The places that something names.
fn named_places(alloc: Global, state: &State) -> Result<BTreeSet<u32>, AllocError>
    ensures { IfOk result (λ named. (n : ℕ)
        → set.contains nat_cmp named n ≡ leaving.is_named state.now.records n) }
{
    let numbers = state.record_numbers(alloc)?;
    let mut named = BTreeSet::new(alloc);
    'numbers: for number in &numbers {
        put_found(state.record(*number), &mut named)?;
    }
    Ok(named)
}

fn is_place(found: Option<&Record>) -> bool
    ensures { result ≡ leaving.is_place (option_copied found.entry) }
{
    match found {
        Some(Record::Place(_)) => true,
        _ => false,
    }
}

/// The places that nothing names, by number: their names stand in no path of a plain export.
pub fn unnamed_places(alloc: Global, state: &State) -> Result<Vec<u32>, AllocError>
    ensures { IfOk result (λ found. found.items
        ≡ filter (leaving.is_unnamed state.now.records) (keys state.now.records)) }
{
    let named = named_places(alloc, state)?;
    let numbers = state.record_numbers(alloc)?;
    let mut found = Vec::new(alloc);
    'numbers: for number in &numbers {
        if is_place(state.record(*number)) && !named.contains(number) {
            found.push(*number)?;
        }
    }
    Ok(found)
}
