//! The numbers that a merge changes, found by the records that name the person that is gone.

ghost use Rattle.std.specs.Prelude.{◌≡◌, IfOk, if◌then◌else◌};
ghost use Rattle.archive_state.specs.Referrers.{referrers};
ghost use Rattle.archive_state.specs.Looks.{CountsFailures, Looked};
ghost use Rattle.archive_state.specs.Views.{On};
ghost use Rattle.merging.specs.Merges as specs;

use archive_state::View;
use record_text::RefusalKind;
use std::alloc::{AllocError, Global};

/// A number more among those that ascend, if it is not there yet.
pub fn with_number(alloc: Global, numbers: &[u32], number: u32) -> Result<Vec<u32>, AllocError>
    ensures { IfOk result (λ found. found.items ≡ specs.with_number number numbers.now) }
{
    let mut found = Vec::new(alloc);
    let mut is_in = false;
    'all: for i in 0..numbers.len() {
        let n = numbers[i];
        if !is_in && number <= n {
            if number < n {
                found.push(number)?;
            }
            is_in = true;
        }
        found.push(n)?;
    }
    if !is_in {
        found.push(number)?;
    }
    Ok(found)
}

/// The numbers whose records a merge changes, ascending.
pub fn changed_numbers<V: View>(
    alloc: Global,
    view: &mut V,
    keep: u32,
    gone: u32,
    adds_nothing: bool,
) -> Result<Vec<u32>, RefusalKind>
    ensures shows { On V.View view.old view.new (λ c. Looked result (λ found. found.items ≡ specs.with_number gone
        (if adds_nothing then referrers c gone else specs.with_number keep (referrers c gone)))) }
    ensures counts { CountsFailures (V.failed view.old) (V.failed view.new) result }
{
    let named = view.referrers(alloc, gone)?;
    if adds_nothing {
        return Ok(with_number(alloc, &named, gone)?);
    }
    let both = with_number(alloc, &named, keep)?;
    Ok(with_number(alloc, &both, gone)?)
}
