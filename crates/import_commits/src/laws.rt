//! What the rows of an archive mean while an import is staged, and afterwards.

ghost use Rattle.std.specs.Prelude.{◌≡◌, ◌==◌, ℕ, [], false, filter, take, drop};
ghost use Rattle.std.specs.FinMap.{get};
ghost use Rattle.sqlite.specs.Tree.{Trees};
ghost use Rattle.archive_state.specs.Applied.{applied};
ghost use Rattle.archive_state.specs.Changes.{Changes};
ghost use Rattle.archive_state.specs.Content.{Content};
ghost use Rattle.store_tables.specs.Calls.{Good};
ghost use Rattle.store_tables.specs.Rows.{LineRow, PackRow, RecordRow, Rows};
ghost use Rattle.record_shapes.specs.Lists.{EachOf};
ghost use Rattle.store_rows.specs.Links.{KeepsLinks};
ghost use Rattle.store_rows.specs.Meaning.{AllShallow, Means, is_closed};
ghost use Rattle.store_rows.specs.Shallow.{IsShallowPut};
ghost use Rattle.store_rows.specs.Sought.{KeepsSought};
ghost use Rattle.store_rows.specs.Spans.{IsDated, KeepsSpans};
ghost use Rattle.staged_rows.specs.Removing.{AreAside, AreOf, IsSeenAs, without_batch};
ghost use Rattle.staged_rows.specs.Staging.{AreNew, IsFresh, numbers_of, with_published, with_staged};
ghost use Rattle.staging.specs.Opened.{Import, links_written};
ghost use Rattle.import_commits.specs.Commits.{AreWrittenAnew, IsAddition, IsBegun, IsNextBatch};

use staged_rows::laws::{
    a_published_import_means_what_it_makes, an_import_leaves_the_rows_of_other_numbers,
    an_import_that_is_taken_out_leaves_nothing, an_open_import_is_not_seen,
    links_of_an_import_are_from_its_numbers, nothing_of_a_new_import_is_there,
    numbers_of_an_import_have_no_record, rows_of_closed_batches,
};
use store_tables::laws::rows_are_owned;

/// Nothing of an import with the next batch is there before it is begun.
pub fn nothing_is_there_of_the_next_batch()
    ensures { (batch : ℕ) (rows : Rows) (t : Trees) (c : Content) (changes : Changes) → Good rows t
        → IsNextBatch batch rows → Means rows c → IsAddition c changes → IsFresh batch changes.puts rows }
{
    rows_are_owned();
    nothing_of_a_new_import_is_there();
    rows_of_closed_batches();
}

/// An import goes on by the rows that are written of it; where no link was there before, none was.
pub fn a_stage_goes_on()
    ensures begun { (n : ℕ) (before rows : Rows) (i : Import) → IsBegun before i rows
        → IsBegun before (record i { left = drop n i.left }) (with_staged (take n i.left) rows) }
    ensures anew { (n : ℕ) (before rows : Rows) (i : Import) → (begun : IsBegun before i rows)
        → AreWrittenAnew before i rows begun → AreNew (take n i.left) rows
        → (next : IsBegun before (record i { left = drop n i.left }) (with_staged (take n i.left) rows))
        × AreWrittenAnew before (record i { left = drop n i.left }) (with_staged (take n i.left) rows) next }
{}

/// While it is open, what is seen of the archive is what was seen before.
pub fn an_import_that_is_begun_is_in_no_view()
    ensures { (before rows : Rows) (i : Import) (c : Content) → IsBegun before i rows
        → IsFresh i.batch i.changes.puts before → IsAddition c i.changes → Means before c → IsSeenAs before rows }
{
    an_open_import_is_not_seen();
    numbers_of_an_import_have_no_record();
}

/// When all its rows are written and it is published, the archive means what the import makes of it, and each record
/// has its span, its links, and the row of what it is looked for by.
pub fn a_published_import_is_whole()
    ensures means { (before rows : Rows) (i : Import) (c : Content) → IsBegun before i rows
        → IsFresh i.batch i.changes.puts before → IsAddition c i.changes → Means before c → i.left ≡ []
        → Means (with_published i.batch i.changes rows) (applied c i.changes)
        × ((with_published i.batch i.changes rows).society ≡ before.society) }
    ensures spans { (before rows : Rows) (i : Import) (c : Content) → IsBegun before i rows
        → IsFresh i.batch i.changes.puts before → IsAddition c i.changes → i.left ≡ [] → IsDated before
        → KeepsSpans before c → IsDated (with_published i.batch i.changes rows)
        × KeepsSpans (with_published i.batch i.changes rows) (applied c i.changes) }
    ensures links { (before rows : Rows) (i : Import) (c : Content) → IsBegun before i rows
        → IsFresh i.batch i.changes.puts before → IsAddition c i.changes → i.left ≡ [] → KeepsLinks before c
        → KeepsLinks (with_published i.batch i.changes rows) (applied c i.changes) }
    ensures soughts { (before rows : Rows) (i : Import) (c : Content) → IsBegun before i rows
        → IsFresh i.batch i.changes.puts before → IsAddition c i.changes → i.left ≡ [] → KeepsSought before c
        → KeepsSought (with_published i.batch i.changes rows) (applied c i.changes) }
{
    a_published_import_means_what_it_makes();
}

/// And what it adds can be read, where its rows could be written.
pub fn what_an_import_adds_can_be_read()
    ensures { (c : Content) (changes : Changes) → IsAddition c changes → EachOf IsShallowPut changes.puts
        → AllShallow c → AllShallow (applied c changes) }
{}

/// It leaves the rows of every number at which the archive then has what it had before.
pub fn a_published_import_leaves_the_rows_of_other_numbers()
    ensures { (before rows : Rows) (i : Import) (c : Content) (m : ℕ) → IsBegun before i rows
        → IsAddition c i.changes → i.left ≡ [] → get c.records m ≡ get (applied c i.changes).records m
        → (filter (λ (l : LineRow). l.no == m) (with_published i.batch i.changes rows).lines ≡ filter
        (λ (l : LineRow). l.no == m) before.lines)
        × (filter (λ (p : PackRow). p.no == m) (with_published i.batch i.changes rows).packs ≡ filter
        (λ (p : PackRow). p.no == m) before.packs)
        × (filter (λ (r : RecordRow). r.no == m) (with_published i.batch i.changes rows).records ≡ filter
        (λ (r : RecordRow). r.no == m) before.records) }
{
    an_import_leaves_the_rows_of_other_numbers();
}

/// It can be removed again: its batch is not closed, its numbers have no record, and its links are from these.
pub fn an_import_that_is_begun_can_be_taken_out()
    ensures { (before rows : Rows) (i : Import) (c : Content) → IsBegun before i rows
        → IsFresh i.batch i.changes.puts before → IsAddition c i.changes → Means before c
        → AreAside (numbers_of i.changes.puts) rows × (is_closed i.batch rows.batches ≡ false)
        × AreOf (numbers_of i.changes.puts) (links_written i) }
{
    an_open_import_is_not_seen();
    numbers_of_an_import_have_no_record();
    links_of_an_import_are_from_its_numbers();
}

/// When it is removed, the rows are those of before, where no link was there before.
pub fn an_import_that_is_taken_out_leaves_what_was()
    ensures { (before rows : Rows) (i : Import) (c : Content) → (begun : IsBegun before i rows)
        → AreWrittenAnew before i rows begun
        → IsFresh i.batch i.changes.puts before → IsAddition c i.changes → Means before c
        → without_batch i.batch (numbers_of i.changes.puts) (links_written i) rows ≡ before }
{
    an_import_that_is_taken_out_leaves_nothing();
}
