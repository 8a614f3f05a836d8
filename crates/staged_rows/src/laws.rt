//! What holds of rows that are staged, and of rows that are removed again.

ghost use Rattle.std.specs.Prelude.{◌≡◌, ◌≢◌, ◌==◌, ◌++◌, ℕ, Bool, true, false, List, Option, None, filter, map, not};
ghost use Rattle.std.specs.FinMap.{get};
ghost use Rattle.std.specs.List.{list_any};
ghost use Rattle.archive_state.specs.Content.{Content};
ghost use Rattle.archive_state.specs.Applied.{applied};
ghost use Rattle.archive_state.specs.Changes.{Changes};
ghost use Rattle.archive_state.specs.declared.changes.Kept.{Kept};
ghost use Rattle.archive_state.specs.declared.changes.Numbered.{Numbered};
ghost use Rattle.record_shapes.specs.Lists.{EachOf, IsOnce};
ghost use Rattle.receipts.specs.declared.answer.Answer.{Answer};
ghost use Rattle.sqlite.specs.Tree.{Trees};
ghost use Rattle.store_tables.specs.Batches.{AreOwned, numbers_in};
ghost use Rattle.store_tables.specs.Calls.{Good};
ghost use Rattle.store_tables.specs.Rows.{
  Rows,
  BatchRow,
  LineRow,
  LinkRow,
  PackRow,
  RecordRow,
  with_batch,
  without_batch_row,
  without_link,
  without_record_row,
  without_sought,
  without_span,
};
ghost use Rattle.store_rows.specs.Links.{KeepsLinks};
ghost use Rattle.store_rows.specs.Meaning.{Means, has_record, is_closed};
ghost use Rattle.store_rows.specs.Sought.{KeepsSought};
ghost use Rattle.store_rows.specs.Spans.{AreDrawn, Drawn, KeepsSpans};
ghost use Rattle.staged_rows.specs.Removing.{AreAside, AreOf, IsSeenAs, links_among, without_batch};
ghost use Rattle.staged_rows.specs.Staging.{
  AreAllClosed,
  AreClosed,
  AreNew,
  IsFresh,
  StagedRow,
  import_changes,
  links_of,
  numbers_of,
  rows_of_import,
  with_open_import,
  with_staged,
  with_whole_import,
};

/// Rows of which the same is seen mean the same, and have the same spans, links and rows of what is looked for.
pub fn what_is_seen_means_the_same()
    ensures means { (rows other : Rows) (c : Content) → IsSeenAs rows other → Means rows c → Means other c }
    ensures spans { (rows other : Rows) (c : Content) → IsSeenAs rows other → Means rows c → KeepsSpans rows c
        → KeepsSpans other c }
    ensures links { (rows other : Rows) (c : Content) → IsSeenAs rows other → Means rows c → KeepsLinks rows c
        → KeepsLinks other c }
    ensures soughts { (rows other : Rows) (c : Content) → IsSeenAs rows other → Means rows c → KeepsSought rows c
        → KeepsSought other c }
    ensures then { (a b c : Rows) → IsSeenAs a b → IsSeenAs b c → IsSeenAs a c }
{}

/// While an import is open nothing of it is seen, however many of its rows are there.
pub fn an_open_import_is_not_seen()
    ensures { (batch count : ℕ) (puts : List Numbered) (drawn : Drawn) (rows : Rows)
        → is_closed batch rows.batches ≡ false → AreAside (numbers_of puts) rows → AreDrawn puts drawn
        → IsSeenAs rows (with_open_import batch puts drawn count rows) }
{}

/// Nothing of an import whose batch is unused, and whose numbers have no record, is there where every row is of a
/// closed batch.
pub fn nothing_of_a_new_import_is_there()
    ensures { (batch : ℕ) (puts : List Numbered) (rows : Rows) (c : Content) → AreClosed rows
        → list_any (λ (b : BatchRow). b.no == batch) rows.batches ≡ false
        → EachOf (λ (p : Numbered). get c.records p.number ≡ None) puts → Means rows c → IsFresh batch puts rows }
{}

/// Where every batch is closed, each row that has what it refers to is of a closed batch.
pub fn rows_of_closed_batches()
    ensures { (rows : Rows) → AreOwned rows → AreAllClosed rows → AreClosed rows }
{}

/// An import of which nothing was there, staged to its end and published: the rows mean what the import makes of what
/// they meant; and where each record had its span, its links or the row of what it is looked for by, each has it.
pub fn a_published_import_means_what_it_makes()
    ensures means { (batch next : ℕ) (puts : List Numbered) (drawn : Drawn) (answer : Answer) (kept : Option Kept)
        (rows : Rows) (c : Content) → IsOnce (numbers_of puts) → IsFresh batch puts rows → AreDrawn puts drawn
        → Means rows c → Means (with_whole_import batch (import_changes puts next answer kept) drawn rows)
        (applied c (import_changes puts next answer kept)) }
    ensures spans { (batch next : ℕ) (puts : List Numbered) (drawn : Drawn) (answer : Answer) (kept : Option Kept)
        (rows : Rows) (c : Content) → IsOnce (numbers_of puts) → IsFresh batch puts rows → AreDrawn puts drawn
        → KeepsSpans rows c → KeepsSpans (with_whole_import batch (import_changes puts next answer kept) drawn rows)
        (applied c (import_changes puts next answer kept)) }
    ensures links { (batch next : ℕ) (puts : List Numbered) (drawn : Drawn) (answer : Answer) (kept : Option Kept)
        (rows : Rows) (c : Content) → IsOnce (numbers_of puts) → IsFresh batch puts rows
        → KeepsLinks rows c → KeepsLinks (with_whole_import batch (import_changes puts next answer kept) drawn rows)
        (applied c (import_changes puts next answer kept)) }
    ensures soughts { (batch next : ℕ) (puts : List Numbered) (drawn : Drawn) (answer : Answer) (kept : Option Kept)
        (rows : Rows) (c : Content) → IsOnce (numbers_of puts) → IsFresh batch puts rows
        → KeepsSought rows c → KeepsSought (with_whole_import batch (import_changes puts next answer kept) drawn rows)
        (applied c (import_changes puts next answer kept)) }
{}

/// Lines of numbers that have no record can go, whichever of them, and so can spans, what is looked for and links: it
/// is not seen.
pub fn what_no_record_has_is_not_seen()
    ensures lines { (stays : LineRow → Bool) (rows : Rows)
        → ((l : LineRow) → stays l ≡ false → has_record l.no rows ≡ false)
        → IsSeenAs rows (record rows { lines = filter stays rows.lines }) }
    ensures packs { (stays : PackRow → Bool) (rows : Rows)
        → ((p : PackRow) → stays p ≡ false → has_record p.no rows ≡ false)
        → IsSeenAs rows (record rows { packs = filter stays rows.packs }) }
    ensures spans { (n : ℕ) (rows : Rows) → has_record n rows ≡ false → IsSeenAs rows (without_span n rows) }
    ensures soughts { (n : ℕ) (rows : Rows) → has_record n rows ≡ false → IsSeenAs rows (without_sought n rows) }
    ensures links { (target n : ℕ) (rows : Rows) → has_record n rows ≡ false
        → IsSeenAs rows (without_link target n rows) }
    ensures record_row { (n : ℕ) (rows : Rows) → has_record n rows ≡ false → IsSeenAs rows (without_record_row n rows) }
    ensures batch_row { (n : ℕ) (rows : Rows) → is_closed n rows.batches ≡ false
        → IsSeenAs rows (without_batch_row n rows) }
{}

/// An import leaves the rows of every number that it does not put: its row in `record`, and its lines.
pub fn an_import_leaves_the_rows_of_other_numbers()
    ensures { (batch : ℕ) (changes : Changes) (drawn : Drawn) (rows : Rows) (m : ℕ)
        → EachOf (λ (p : Numbered). p.number ≢ m) changes.puts
        → (filter (λ (l : LineRow). l.no == m) (with_whole_import batch changes drawn rows).lines ≡ filter
        (λ (l : LineRow). l.no == m) rows.lines)
        × (filter (λ (p : PackRow). p.no == m) (with_whole_import batch changes drawn rows).packs ≡ filter
        (λ (p : PackRow). p.no == m) rows.packs)
        × (filter (λ (r : RecordRow). r.no == m) (with_whole_import batch changes drawn rows).records ≡ filter
        (λ (r : RecordRow). r.no == m) rows.records) }
{}

/// An import of which nothing was there, staged to any row and removed, leaves the rows as they were, where no link
/// was there that was written.
pub fn an_import_that_is_taken_out_leaves_nothing()
    ensures { (batch : ℕ) (puts : List Numbered) (drawn : Drawn) (done left : List StagedRow) (rows : Rows)
        → rows_of_import batch puts drawn ≡ done ++ left → IsFresh batch puts rows → AreDrawn puts drawn
        → AreNew done (with_batch batch true rows)
        → without_batch batch (numbers_of puts) (links_among done) (with_staged done (with_batch batch true rows))
        ≡ rows }
{}

/// A batch that is not closed can be removed with all of its numbers, and with links from these: it is not seen.
pub fn a_batch_that_is_taken_out_is_not_seen()
    ensures { (batch : ℕ) (ns : List ℕ) (ls : List LinkRow) (rows : Rows) → AreAside ns rows → AreOf ns ls
        → is_closed batch rows.batches ≡ false → IsSeenAs rows (without_batch batch ns ls rows) }
{}

/// The links of an import are from its numbers.
pub fn links_of_an_import_are_from_its_numbers()
    ensures { (puts : List Numbered) → AreOf (numbers_of puts) (links_of puts) }
{}

/// The numbers of an import whose numbers have no record in a content have none in the rows that mean it.
pub fn numbers_of_an_import_have_no_record()
    ensures { (puts : List Numbered) (rows : Rows) (c : Content)
        → EachOf (λ (p : Numbered). get c.records p.number ≡ None) puts → Means rows c
        → AreAside (numbers_of puts) rows }
{}

/// The numbers of a batch that is not closed have no record.
pub fn numbers_of_an_open_batch_have_no_record()
    ensures { (batch : ℕ) (rows : Rows) (t : Trees) → Good rows t → is_closed batch rows.batches ≡ false
        → AreAside (numbers_in batch rows) rows }
{}
