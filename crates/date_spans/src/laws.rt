//! Laws of spans, over the definitions that the contracts cite.

ghost use Rattle.std.specs.Prelude.{◌≡◌, ◌≤ℤ◌, ◌↔◌, ℕ, ℤ, List, None, Option, Some};
ghost use Rattle.std.specs.FinMap.{insert, remove};
ghost use Rattle.gedcom_date.specs.Days.{IsDayOf};
ghost use Rattle.gedcom_date.specs.Form.{Form};
ghost use Rattle.gedcom_date.specs.Grammar.{Says};
ghost use Rattle.gedcom_date.specs.declared.value.Span.{Span};
ghost use Rattle.record_fields.specs.declared.date.Date.{Date};
ghost use Rattle.record_kinds.specs.declared.record.Record.{Record};
ghost use Rattle.archive_state.specs.Content.{Records};
ghost use Rattle.date_spans.specs.Between.{AreAll, IsBetween};
ghost use Rattle.date_spans.specs.Meeting.{HasEnd, Meets};
ghost use Rattle.date_spans.specs.Spans.{AreSpans, IsSpan, IsSpanOf, date_in};

/// A date has one span.
pub fn a_date_has_one_span()
    ensures { (date : Date) (s t : Span) → IsSpan date s → IsSpan date t → s ≡ t }
{}

/// A date whose span has an end, and which may mean a day from the first to the last, has a span that meets them: no
/// event that may have happened in these days is left out.
pub fn a_day_that_a_date_may_mean_is_met()
    ensures { (date : Date) (s : Span) (form : Form) (day first last : ℤ) → IsSpan date s → Says date.text form
        → IsDayOf form day → first ≤ℤ day → day ≤ℤ last → HasEnd s → Meets s first last }
{}

/// The span of a date meets its own first day, and its own last day.
pub fn a_span_meets_its_own_days()
    ensures first { (date : Date) (s : Span) (lo : ℤ) → IsSpan date s → s.lo ≡ Some lo → Meets s lo lo }
    ensures last { (date : Date) (s : Span) (hi : ℤ) → IsSpan date s → s.hi ≡ Some hi → Meets s hi hi }
{}

/// What is between two days is between any wider ones.
pub fn what_is_between_is_between_wider_days()
    ensures { (m : Records) (first last earlier later : ℤ) (n : ℕ) → earlier ≤ℤ first → last ≤ℤ later
        → IsBetween m first last n → IsBetween m earlier later n }
{}

/// Who keeps the spans of all records finds only by them which are between two days.
pub fn kept_spans_tell_what_is_between()
    ensures { (m : Records) (look : ℕ → Option Span) (first last : ℤ) (n : ℕ) → AreSpans m look
        → IsBetween m first last n ↔ ((s : Span) × (look n ≡ Some s) × Meets s first last) }
{}

/// The spans of all records follow from the records.
pub fn records_have_one_span_each()
    ensures { (m : Records) (look other : ℕ → Option Span) (n : ℕ) → AreSpans m look → AreSpans m other
        → look n ≡ other n }
{}

/// There is one answer to what is between two days.
pub fn there_is_one_list_between_days()
    ensures { (m : Records) (first last : ℤ) (ns ms : List ℕ) → AreAll (IsBetween m first last) ns
        → AreAll (IsBetween m first last) ms → ns ≡ ms }
{}

/// A record that is put at a number, or removed, changes only the span of that number.
pub fn one_record_changes_one_span()
    ensures put { (m : Records) (k : ℕ) (r : Record) (look after : ℕ → Option Span) → AreSpans m look
        → IsSpanOf (date_in r) (after k) → ((n : ℕ) → (n ≡ k → ⊥) → after n ≡ look n)
        → AreSpans (insert m k r) after }
    ensures removed { (m : Records) (k : ℕ) (look after : ℕ → Option Span) → AreSpans m look → after k ≡ None
        → ((n : ℕ) → (n ≡ k → ⊥) → after n ≡ look n) → AreSpans (remove m k) after }
{}
