//! Laws of archives that are read anew, over the definitions that the contracts cite.
//!
//! What holds of rows of the first version.

ghost use Rattle.std.specs.Prelude.{◌≡◌, ◌⊎◌, ℕ, List, Some, IfSome};
ghost use Rattle.gedcom_date.specs.Before.{FittedNone};
ghost use Rattle.gedcom_date.specs.Form.{Form};
ghost use Rattle.gedcom_date.specs.Grammar.{Fits};
ghost use Rattle.gedcom_date.specs.Spelling.{spelling};
ghost use Rattle.record_fields.specs.Dates.{IsWritten};
ghost use Rattle.record_fields.specs.declared.date.Date.{Date};
ghost use Rattle.record_shapes.specs.Reading.{dated};
ghost use Rattle.record_text.specs.Text.{IsText};
ghost use Rattle.records.specs.Stored.{stored};
ghost use Rattle.stored_lines.specs.Line.{Label};
ghost use Rattle.archive_state.specs.Content.{Content};
ghost use Rattle.archive_state.specs.Sound.{IsSound};
ghost use Rattle.older_archives.specs.Anew.{IsAnew, IsAsBefore, IsRedated, IsSoundOld, OldContent, anew};
ghost use Rattle.older_archives.specs.Dates.{WasWritten};
ghost use Rattle.older_archives.specs.Old.{OldRecord, WasKeptAs, stored_with};
ghost use Rattle.store_tables.specs.Rows.{Rows};
ghost use Rattle.store_rows.specs.Spans.{IsDated};
ghost use Rattle.older_archives.specs.Meaning.{AreSeenAlike, MeansAnew, MeansOld};

/// What an archive of that time is today is sound where it was.
pub fn what_was_sound_is_sound_anew()
    ensures { (before : OldContent) (c : Content) → IsSoundOld before → IsAnew before c → IsSound c }
{}

/// No rule of a sound archive looks at what a date says, but that it is a text.
pub fn no_rule_looks_at_what_a_date_says()
    ensures { (f : Date → Date) → ((d : Date) → IsText d.text → IsText (f d).text) → (c after : Content) → IsSound c
        → IsRedated f c after → IsSound after }
{}

/// An archive of that time is one archive today.
pub fn an_archive_is_one_archive_anew()
    ensures { (before : OldContent) (c d : Content) → IsAnew before c → IsAnew before d → c ≡ d }
{}

/// What is anew stays as it is, where it is taken for an archive of that time and read anew again.
pub fn anew_twice_is_anew_once()
    ensures { (c : Content) (before : OldContent) (d : Content) → IsAsBefore c before → IsAnew before d → d ≡ c }
{}

/// A date of that time is a spelling of today, or it fitted no form then and fits one today.
pub fn a_date_stays_or_fits_now()
    ensures { (text : List ℕ) → WasWritten text
        → IsWritten text ⊎ (FittedNone text × ((form : Form) × Fits text form)) }
{}

/// What fits a form today is, as a date of today, the canonical spelling of that form.
pub fn what_fits_is_spelt_anew()
    ensures { (text : List ℕ) (form : Form) → Fits text form
        → (date : Date) × (dated text ≡ Some date) × (date.text ≡ spelling form) }
{}

/// A record without a date, or whose date is a spelling of today, keeps its lines.
pub fn a_record_of_today_stays()
    ensures { (o : OldRecord) → IfSome o.date IsWritten → stored (anew o) ≡ stored_with o.date o.rest }
{}

/// Lines are those that one record of that time at the most was kept as.
pub fn lines_were_of_one_record()
    ensures { (lines : List (ℕ × Label)) (o p : OldRecord) → WasKeptAs lines o → WasKeptAs lines p → o ≡ p }
{}

/// Rows of the first version mean one content at the most today.
pub fn old_rows_mean_one_content()
    ensures { (rows : Rows) (c d : Content) → MeansAnew rows c → MeansAnew rows d → c ≡ d }
{}

/// Other rows of which the same is seen mean the same.
pub fn what_is_seen_alike_means_the_same()
    ensures old { (rows other : Rows) (before : OldContent) → AreSeenAlike rows other → MeansOld rows before
        → MeansOld other before }
    ensures anew { (rows other : Rows) (c : Content) → AreSeenAlike rows other → MeansAnew rows c
        → MeansAnew other c }
{}

/// No rows are of both versions.
pub fn no_rows_are_of_both_versions()
    ensures { (rows : Rows) (before : OldContent) → IsDated rows → MeansOld rows before → ⊥ }
{}
