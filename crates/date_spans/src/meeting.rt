//! Spans that meet days.

ghost use Rattle.std.specs.Prelude.{◌↔◌, ◌≤ℤ◌, IfSome, IsTrue};
ghost use Rattle.date_spans.specs.Meeting.{HasEnd, Meets};

use gedcom_date::Span;

/// Whether a span has an end and meets the days from the first to the last. It is judged as it is said also where the
/// first is after the last. Takes no memory.
pub fn meets(span: Span, first: i32, last: i32) -> bool
    ensures { IsTrue result ↔ Meets span first last }
{
    has_end(span) && begins_by(span.lo, last) && goes_on_to(span.hi, first)
}

/// Whether it has a first or a last day.
fn has_end(span: Span) -> bool
    ensures { IsTrue result ↔ HasEnd span }
{
    span.lo.is_some() || span.hi.is_some()
}

/// Whether no first day is after the last one.
fn begins_by(lo: Option<i32>, last: i32) -> bool
    ensures { IsTrue result ↔ IfSome lo (λ lo. lo ≤ℤ last) }
{
    match lo {
        None => true,
        Some(lo) => lo <= last,
    }
}

/// Whether no last day is before the first one.
fn goes_on_to(hi: Option<i32>, first: i32) -> bool
    ensures { IsTrue result ↔ IfSome hi (λ hi. first ≤ℤ hi) }
{
    match hi {
        None => true,
        Some(hi) => first <= hi,
    }
}
