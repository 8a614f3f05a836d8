//! The numbers of the records of some kinds, found by the tags of their rows.

ghost use Rattle.std.specs.Prelude.{◌≡◌, ◌==◌, ◌∷◌, [], ℕ, Bool, false, filter, IfOk};
ghost use Rattle.std.specs.BTreeSet as set;
ghost use Rattle.std.specs.List.{list_any};
ghost use Rattle.std.specs.Ordering.{nat_cmp};
ghost use Rattle.sqlite.specs.Held.{state};
ghost use Rattle.kind_views.specs.Kinds.{numbers_of};
ghost use Rattle.store_rows.specs.Looking.{Sees};
ghost use Rattle.store_rows.specs.Tagged.{numbers_tagged, tags_of};

use crate::looking::record_numbers;
use kind_views::Kinds;
use record_text::RefusalKind;
use sqlite::{Alter, Connection};
use std::alloc::{AllocError, Global};
use std::collections::BTreeSet;
use store_tables::keyed;

/// The numbers of the records of some kinds, ascending, read of the tag of each row: no record is read. No transaction
/// may be open. Errors as of `record_at`.
pub fn numbers_of<S: Alter>(
    alloc: Global,
    conn: &mut Connection<S>,
    kinds: Kinds,
) -> Result<Vec<u32>, RefusalKind>
    requires autocommit { conn.old.in_transaction ≡ false }
    ensures sees { Sees (λ c found. found.items ≡ numbers_of kinds c) (state S.Store conn.old)
        (state S.Store conn.new) result }
    ensures ended { conn.new.in_transaction ≡ false }
{
    let (one, two, three, four, five) = tags_of(kinds);
    numbers_tagged(alloc, conn, one, two, three, four, five)
}

/// The words of some kinds, five in all, of which some may be the same.
fn tags_of(
    kinds: Kinds,
) -> (
    &'static str,
    &'static str,
    &'static str,
    &'static str,
    &'static str,
)
    ensures { (result.0.now ∷ result.1.now ∷ result.2.now ∷ result.3.now ∷ result.4.now ∷ []) ≡ tags_of kinds }
{
    match kinds {
        Kinds::Persons => ("person", "person", "person", "person", "person"),
        Kinds::Families => ("family", "family", "family", "family", "family"),
        Kinds::Events => ("event", "event", "event", "event", "event"),
        Kinds::Places => ("place", "place", "place", "place", "place"),
        Kinds::Repositories => ("repo", "repo", "repo", "repo", "repo"),
        Kinds::Sources => ("source", "source", "source", "source", "source"),
        Kinds::Citations => ("citation", "citation", "citation", "citation", "citation"),
        Kinds::Entries => ("entry", "entry", "entry", "entry", "entry"),
        Kinds::Others => ("other", "other", "other", "other", "other"),
        Kinds::Named => ("person", "entry", "place", "repo", "source"),
    }
}

/// The numbers of the records whose stored lines begin with one of these tags, ascending.
fn numbers_tagged<S: Alter>(
    alloc: Global,
    conn: &mut Connection<S>,
    one: &str,
    two: &str,
    three: &str,
    four: &str,
    five: &str,
) -> Result<Vec<u32>, RefusalKind>
    requires autocommit { conn.old.in_transaction ≡ false }
    ensures sees { Sees (λ c found. found.items
        ≡ numbers_tagged (one.now ∷ two.now ∷ three.now ∷ four.now ∷ five.now ∷ []) c) (state S.Store conn.old)
        (state S.Store conn.new) result }
    ensures ended { conn.new.in_transaction ≡ false }
{
    let tagged = keyed::tagged_by(alloc, conn, one, two, three, four, five)?;
    let numbers = record_numbers(alloc, conn)?;
    Ok(among(alloc, &numbers, &tagged)?)
}

/// Those of some numbers that are among others, in their order.
fn among(alloc: Global, numbers: &[u32], others: &[u32]) -> Result<Vec<u32>, AllocError>
    ensures { IfOk result (λ found. (has : ℕ → Bool) × ((n : ℕ) → has n ≡ list_any (λ k. k == n) others.now)
        × (found.items ≡ filter has numbers.now)) }
{
    let members = set_of(alloc, others)?;
    chosen(alloc, numbers, &members)
}

/// Some numbers as a set.
fn set_of(alloc: Global, numbers: &[u32]) -> Result<BTreeSet<u32>, AllocError>
    ensures { IfOk result (λ found. (n : ℕ) → set.contains nat_cmp found n ≡ list_any (λ k. k == n) numbers.now) }
{
    let mut found: BTreeSet<u32> = BTreeSet::new(alloc);
    'numbers: for number in numbers {
        found.insert(*number)?;
    }
    Ok(found)
}

/// Those of some numbers that are in a set.
fn chosen(alloc: Global, numbers: &[u32], members: &BTreeSet<u32>) -> Result<Vec<u32>, AllocError>
    ensures { IfOk result (λ found. found.items ≡ filter (set.contains nat_cmp members.now) numbers.now) }
{
    let mut found = Vec::new(alloc);
    'numbers: for number in numbers {
        if members.contains(number) {
            found.push(*number)?;
        }
    }
    Ok(found)
}
