//! The rules on a place by itself.

ghost use Rattle.std.specs.Prelude.{◌<◌, ◌↔◌, IsTrue, IfOk, IfSome};
ghost use Rattle.record_shapes.specs.Paths.{IsNormal};
ghost use Rattle.archive_state.specs.Sound.{HasNormalName, HasSmallerParent};

use field_rows::made_normal;
use record_kinds::Record;
use std::alloc::{AllocError, Global};

/// Whether the place of that number is within one of a smaller number, or within none.
pub fn has_smaller_parent(number: u32, record: &Record) -> bool
    ensures { IsTrue result ↔ HasSmallerParent number «record».now }
{
    match record {
        Record::Place(place) => is_smaller(place.parent, number),
        _ => true,
    }
}

fn is_smaller(parent: Option<u32>, number: u32) -> bool
    ensures { IsTrue result ↔ IfSome parent (λ q. q < number) }
{
    match parent {
        Some(parent) => parent < number,
        None => true,
    }
}

/// Whether the name of the place is normal.
pub fn has_normal_name(alloc: Global, record: &Record) -> Result<bool, AllocError>
    ensures { IfOk result (λ b. IsTrue b ↔ HasNormalName «record».now) }
{
    match record {
        Record::Place(place) => is_normal(alloc, place.name.as_str()),
        _ => Ok(true),
    }
}

fn is_normal(alloc: Global, text: &str) -> Result<bool, AllocError>
    ensures { IfOk result (λ b. IsTrue b ↔ IsNormal text.now) }
{
    let normal = made_normal(alloc, text)?;
    Ok(normal.as_str() == text)
}
