//! What holds of the rows.

ghost use Rattle.std.specs.Prelude.{◌≡◌, ◌≢◌, ◌==◌, ◌&&◌, ℕ, List, [], filter};
ghost use Rattle.std.specs.List.{list_any};
ghost use Rattle.archive_state.specs.Applied.{applied};
ghost use Rattle.archive_state.specs.Changes.{Changes};
ghost use Rattle.archive_state.specs.Content.{Content};
ghost use Rattle.archive_state.specs.Referrers.{referrers};
ghost use Rattle.record_shapes.specs.Lists.{EachOf};
ghost use Rattle.archive_state.specs.declared.changes.Numbered.{Numbered};
ghost use Rattle.store_tables.specs.Rows.{Rows, LineRow, PackRow, RecordRow};
ghost use Rattle.store_rows.specs.Links.{KeepsLinks};
ghost use Rattle.store_rows.specs.Meaning.{Means, has_record};
ghost use Rattle.store_rows.specs.Pasts.{AddsPasts, with_all_changes};
ghost use Rattle.store_rows.specs.Sought.{KeepsSought};
ghost use Rattle.store_rows.specs.Spans.{AreDrawn, Drawn, IsDated, KeepsSpans, with_dated_changes};
ghost use Rattle.store_rows.specs.Writing.{with_changes};

/// Rows mean one content at the most.
pub fn rows_mean_one_content()
    ensures { (rows : Rows) (c d : Content) → Means rows c → Means rows d → c ≡ d }
{}

/// Rows of any content, with the changes of a request written, mean what the changes make of that content.
pub fn written_changes_mean_what_they_make()
    ensures { (changes : Changes) (rows : Rows) (c : Content) → Means rows c
        → Means (with_changes changes rows) (applied c changes) }
{}

/// Where each record had its span, each has it when the changes of a request and the spans of what it puts are written.
pub fn written_spans_are_those_of_the_records()
    ensures { (changes : Changes) (drawn : Drawn) (rows : Rows) (c : Content) → AreDrawn changes.puts drawn
        → KeepsSpans rows c → KeepsSpans (with_dated_changes changes drawn rows) (applied c changes) }
{}

/// Where each record had its links, each has them when the changes of a request are written.
pub fn written_links_are_those_of_the_records()
    ensures { (changes : Changes) (drawn : Drawn) (rows : Rows) (c : Content)
        → KeepsLinks rows c → KeepsLinks (with_dated_changes changes drawn rows) (applied c changes) }
{}

/// Where each record had the row of what it is looked for by, each has it when the changes of a request are written.
pub fn written_rows_of_what_is_looked_for_are_those_of_the_records()
    ensures { (changes : Changes) (drawn : Drawn) (rows : Rows) (c : Content)
        → KeepsSought rows c → KeepsSought (with_dated_changes changes drawn rows) (applied c changes) }
{}

/// The spans, the links and what is looked for change nothing of what rows mean, and no row in `record` and no line.
pub fn spans_say_nothing_of_records()
    ensures means { (changes : Changes) (drawn : Drawn) (rows : Rows) (c : Content)
        → Means (with_changes changes rows) c → Means (with_dated_changes changes drawn rows) c }
    ensures lines { (changes : Changes) (drawn : Drawn) (rows : Rows)
        → (with_dated_changes changes drawn rows).lines ≡ (with_changes changes rows).lines }
    ensures records { (changes : Changes) (drawn : Drawn) (rows : Rows)
        → (with_dated_changes changes drawn rows).records ≡ (with_changes changes rows).records }
    ensures society { (changes : Changes) (drawn : Drawn) (rows : Rows)
        → (with_dated_changes changes drawn rows).society ≡ rows.society }
    ensures dated { (changes : Changes) (drawn : Drawn) (rows : Rows) → IsDated rows
        → IsDated (with_dated_changes changes drawn rows) }
{}

/// Changes leave the rows of every number that they neither put nor take out: its row in `record`, and its lines.
pub fn rows_of_other_numbers_stay()
    ensures { (changes : Changes) (rows : Rows) (m : ℕ)
        → EachOf (λ (p : Numbered). p.number ≢ m) changes.puts → EachOf (λ n. n ≢ m) changes.removals
        → (filter (λ (l : LineRow). l.no == m) (with_changes changes rows).lines ≡ filter
        (λ (l : LineRow). l.no == m) rows.lines)
        × (filter (λ (p : PackRow). p.no == m) (with_changes changes rows).packs ≡ filter
        (λ (p : PackRow). p.no == m) rows.packs)
        × (filter (λ (r : RecordRow). r.no == m) (with_changes changes rows).records ≡ filter
        (λ (r : RecordRow). r.no == m) rows.records) }
{}

/// Values of before change nothing of what rows mean, nor of what goes with records.
pub fn values_of_before_say_nothing_of_records()
    ensures means { (changes : Changes) (drawn : Drawn) (pasts : List Numbered) (rows : Rows) (c : Content)
        → Means (with_dated_changes changes drawn rows) c → Means (with_all_changes changes drawn pasts rows) c }
    ensures spans { (changes : Changes) (drawn : Drawn) (pasts : List Numbered) (rows : Rows) (c : Content)
        → KeepsSpans (with_dated_changes changes drawn rows) c
        → KeepsSpans (with_all_changes changes drawn pasts rows) c }
    ensures links { (changes : Changes) (drawn : Drawn) (pasts : List Numbered) (rows : Rows) (c : Content)
        → KeepsLinks (with_dated_changes changes drawn rows) c
        → KeepsLinks (with_all_changes changes drawn pasts rows) c }
    ensures soughts { (changes : Changes) (drawn : Drawn) (pasts : List Numbered) (rows : Rows) (c : Content)
        → KeepsSought (with_dated_changes changes drawn rows) c
        → KeepsSought (with_all_changes changes drawn pasts rows) c }
    ensures dated { (changes : Changes) (drawn : Drawn) (pasts : List Numbered) (rows : Rows)
        → IsDated (with_dated_changes changes drawn rows) → IsDated (with_all_changes changes drawn pasts rows) }
    ensures society { (changes : Changes) (drawn : Drawn) (pasts : List Numbered) (rows : Rows)
        → (with_all_changes changes drawn pasts rows).society ≡ (with_dated_changes changes drawn rows).society }
{}

/// Where the changes of a request are written, the values of before that there were are as they were, and one of each
/// record that is handed over comes after them, under the token of the request. Without such records nothing is added.
pub fn values_of_before_stay()
    ensures adds { (changes : Changes) (drawn : Drawn) (pasts : List Numbered) (rows : Rows)
        → AddsPasts changes.kept pasts rows (with_all_changes changes drawn pasts rows) }
    ensures none { (changes : Changes) (drawn : Drawn) (rows : Rows)
        → with_all_changes changes drawn [] rows ≡ with_dated_changes changes drawn rows }
{}
