//! Whether two records are the same.

ghost use Rattle.std.specs.Prelude.{◌≡◌, ◌↔◌, Some, IfOk, IsTrue};

use record_kinds::Record;
use records::lines_of;
use std::alloc::{AllocError, Global};
use stored_lines::are_same;

/// Whether both are the same record, or none.
pub fn is_same(
    alloc: Global,
    one: &Option<Record>,
    other: &Option<Record>,
) -> Result<bool, AllocError>
    ensures { IfOk result (λ is. IsTrue is ↔ (one.now ≡ other.now)) }
{
    match (one, other) {
        (None, None) => Ok(true),
        (Some(one), Some(other)) => has_same_lines(alloc, one, other),
        _ => Ok(false),
    }
}

/// Whether both are kept as the same lines.
fn has_same_lines(alloc: Global, one: &Record, other: &Record) -> Result<bool, AllocError>
    ensures { IfOk result (λ is. IsTrue is ↔ (Some one.now ≡ Some other.now)) }
{
    let a = lines_of(alloc, one)?;
    let b = lines_of(alloc, other)?;
    Ok(are_same(&a, &b))
}
