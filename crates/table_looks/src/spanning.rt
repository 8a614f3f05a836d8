//! Has each record of a state its own span among those of the tables?

ghost use Rattle.std.specs.Prelude.{ℕ, ◌≡◌, ◌↔◌, ◌∷◌, [], IfOk, IsTrue, MatchOption, OnOk};
ghost use Rattle.std.specs.BTreeMap as tree;
ghost use Rattle.std.specs.Ordering.{nat_cmp};
ghost use Rattle.record_shapes.specs.Lists.{EachOf};
ghost use Rattle.table_looks.specs.Spanning.{HasOwn, HaveSpans, first_there, spans_in};

use archive_state::State;
use date_spans::span_of;
use gedcom_date::Span;
use std::alloc::{AllocError, Global};
use std::collections::BTreeMap;
use store_tables::SpanRow;

/// The lowest number whose record does not have its own span among the rows. `None`: each has. Each row and each record
/// is looked at once.
pub(crate) fn first_unspanned(
    alloc: Global,
    held: &State,
    rows: Vec<SpanRow>,
) -> Result<Option<u32>, AllocError>
    ensures { IfOk result (λ o. MatchOption o (HaveSpans rows.items held.now)
        (λ n. ¬ (HasOwn held.now (spans_in rows.items) n))) }
{
    let spans = gathered(alloc, rows)?;
    let numbers = held.record_numbers(alloc)?;
    first_without(alloc, held, &spans, numbers.as_slice())
}

/// The spans by their numbers; of two rows of one number the first.
fn gathered(alloc: Global, rows: Vec<SpanRow>) -> Result<BTreeMap<u32, Span>, AllocError>
    ensures { IfOk result (λ spans. (n : ℕ) → tree.get nat_cmp spans n ≡ spans_in rows.items n) }
{
    let mut spans = BTreeMap::new(alloc);
    'rows: for row in rows {
        add_span(&row, &mut spans)?;
    }
    Ok(spans)
}

/// Adds the span of a row, where its number has none.
fn add_span(row: &SpanRow, spans: &mut BTreeMap<u32, Span>) -> Result<(), AllocError>
    ensures { OnOk result ((n : ℕ) → tree.get nat_cmp spans.new n
        ≡ first_there (tree.get nat_cmp spans.old n) (spans_in (row.now ∷ []) n)) }
{
    if spans.contains_key(&row.number) {
        return Ok(());
    }
    let span = Span {
        lo: row.lo,
        hi: row.hi,
    };
    spans.insert(row.number, span)?;
    Ok(())
}

/// The first of the numbers whose record does not have its own span.
fn first_without(
    alloc: Global,
    held: &State,
    spans: &BTreeMap<u32, Span>,
    numbers: &[u32],
) -> Result<Option<u32>, AllocError>
    ensures { IfOk result (λ o. MatchOption o (EachOf (HasOwn held.now (tree.get nat_cmp spans.now)) numbers.now)
        (λ n. ¬ (HasOwn held.now (tree.get nat_cmp spans.now) n))) }
{
    'numbers: for number in numbers {
        if !has_own(alloc, held, spans, *number)? {
            return Ok(Some(*number));
        }
    }
    Ok(None)
}

/// Whether the record of a number has its own span, where there is one.
fn has_own(
    alloc: Global,
    held: &State,
    spans: &BTreeMap<u32, Span>,
    number: u32,
) -> Result<bool, AllocError>
    ensures { IfOk result (λ b. IsTrue b ↔ HasOwn held.now (tree.get nat_cmp spans.now) number) }
{
    let Some(found) = held.record(number) else {
        return Ok(true);
    };
    let own = span_of(alloc, found)?;
    Ok(is_same(own, span_at(spans, number)))
}

/// The span of a number, where it has one.
fn span_at(spans: &BTreeMap<u32, Span>, number: u32) -> Option<Span>
    ensures { result ≡ tree.get nat_cmp spans.now number }
{
    spans.get(&number).copied()
}

/// Whether two spans are one, or there is neither.
fn is_same(own: Option<Span>, kept: Option<Span>) -> bool
    ensures { IsTrue result ↔ (own ≡ kept) }
{
    match (own, kept) {
        (Some(own), Some(kept)) => { is_same_day(own.lo, kept.lo) && is_same_day(own.hi, kept.hi) }
        (None, None) => true,
        _ => false,
    }
}

/// Whether two days are one, or there is neither.
fn is_same_day(day: Option<i32>, other: Option<i32>) -> bool
    ensures { IsTrue result ↔ (day ≡ other) }
{
    match (day, other) {
        (Some(day), Some(other)) => day == other,
        (None, None) => true,
        _ => false,
    }
}
