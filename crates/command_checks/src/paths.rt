//! Whether the path of a new place is within the limits.

ghost use Rattle.std.specs.Prelude.{◌≡◌, ◌==◌, length};
ghost use Rattle.std.specs.List.{count_by};
ghost use Rattle.archive_state.specs.Known.{path_of};
ghost use Rattle.archive_state.specs.Looks.{CountsFailures, Looked};
ghost use Rattle.archive_state.specs.Views.{On};
ghost use Rattle.record_shapes.specs.Paths.{parts};
ghost use Rattle.command_checks.specs.Fits as fits;

use archive_state::View;
use record_kinds::Record;
use record_text::RefusalKind;
use std::alloc::Global;

/// The most parts and the most bytes that a path has.
const MOST_PARTS: usize = 32;

const MOST_BYTES: usize = 4_096;

/// The bytes of comma and space, which a path has between two names.
const BETWEEN: usize = 2;

/// The parts and bytes of a place's name, and the number of the place that it is within.
#[derive(Clone, Copy, Debug)]
struct Measure {
    parts: usize,
    bytes: usize,
    parent: Option<u32>,
}

/// Whether a new place of that name, within another one where one is given, has a path of at most 32 parts and 4,096
/// bytes. It has none where what is given is no place with a path.
#[tactic(auto, using(crate::proofs::Within::fit_many, crate::proofs::Within::fit_long, crate::proofs::Within::fit_alone, crate::proofs::Within::fit_no_room, crate::proofs::Within::fit_above))]
pub fn is_path_fit<V: View>(
    alloc: Global,
    view: &mut V,
    name: &str,
    parent: Option<u32>,
) -> Result<bool, RefusalKind>
    ensures decides { On V.View view.old view.new
        (λ c. Looked result (λ is. is ≡ fits.is_fit (fits.new_path c.records name.now parent))) }
    ensures counts { CountsFailures (V.failed view.old) (V.failed view.new) result }
{
    let own = Measure {
        parts: part_count(name),
        bytes: name.len(),
        parent,
    };
    if own.parts > MOST_PARTS || own.bytes > MOST_BYTES {
        return Ok(false);
    }
    let Some(parent) = own.parent else {
        return Ok(true);
    };
    if MOST_BYTES - own.bytes < BETWEEN {
        return Ok(false);
    }
    is_within(
        alloc,
        view,
        parent,
        MOST_PARTS - own.parts,
        MOST_BYTES - own.bytes - BETWEEN,
    )
}

/// Whether the place of a number has a path of at most so many parts and bytes.
#[tactic(auto, using(crate::proofs::Within::within_no_place, crate::proofs::Within::within_many, crate::proofs::Within::within_long, crate::proofs::Within::within_alone, crate::proofs::Within::within_not_below, crate::proofs::Within::within_no_room, crate::proofs::Within::within_above))]
fn is_within<V: View>(
    alloc: Global,
    view: &mut V,
    number: u32,
    parts: usize,
    bytes: usize,
) -> Result<bool, RefusalKind>
    ensures decides { On V.View view.old view.new
        (λ c. Looked result (λ is. is ≡ fits.is_within parts bytes (path_of c.records number))) }
    ensures counts { CountsFailures (V.failed view.old) (V.failed view.new) result }
{
    let Some(own) = measured(view.record_at(alloc, number)?) else {
        return Ok(false);
    };
    if own.parts > parts || own.bytes > bytes {
        return Ok(false);
    }
    let Some(above) = own.parent else {
        return Ok(true);
    };
    if above >= number {
        return Ok(false);
    }
    if bytes - own.bytes < BETWEEN {
        return Ok(false);
    }
    is_within(
        alloc,
        view,
        above,
        parts - own.parts,
        bytes - own.bytes - BETWEEN,
    )
}

/// What a place measures; nothing where there is none. The record is given back here.
fn measured(found: Option<Record>) -> Option<Measure>
    ensures { result ≡ fits.measured found }
{
    let Some(record) = found else {
        return None;
    };
    let own = measure_of(&record);
    drop(record);
    own
}

fn measure_of(record: &Record) -> Option<Measure>
    ensures { result ≡ fits.measure_of «record».now }
{
    match record {
        Record::Place(place) => Some(Measure {
            parts: part_count(place.name.as_str()),
            bytes: place.name.as_str().len(),
            parent: place.parent,
        }),
        _ => None,
    }
}

/// How many parts a text has: one more than its commas.
#[tactic(auto, using(record_shapes::proofs::PathTexts::count_is))]
fn part_count(text: &str) -> usize
    ensures { result ≡ length (parts text.now) }
{
    commas(text.as_bytes()) + 1
}

/// How many commas there are.
fn commas(text: &[u8]) -> usize
    ensures { result ≡ count_by (λ b. b == 44) text.now }
{
    text.iter().filter(|b| **b == b',').count()
}
