//! What holds of the tables.

ghost use Rattle.std.specs.Prelude.{◌≡◌, Bool, ℕ};
ghost use Rattle.std.specs.Ordering.{int_cmp};
ghost use Rattle.sqlite.specs.Schema.{Schema};
ghost use Rattle.sqlite.specs.Tree.{Trees};
ghost use Rattle.sqlite_catalog.specs.Listing.{IsSound};
ghost use Rattle.store_tables.specs.Batches.{AreOwned};
ghost use Rattle.store_tables.specs.Calls.{Good};
ghost use Rattle.store_tables.specs.Pasts.{IsAboveAll, OthersLeavePasts};
ghost use Rattle.store_tables.specs.Reading.{IsU32};
ghost use Rattle.store_tables.specs.Rows.{LinkRow, Rows, integer_at, link_place, pair_cmp, pair_place};
ghost use Rattle.store_tables.specs.Schema.{archive_schema};

/// Tables that list a schema of an archive list no other, so that an open finds the one that was there.
#[tactic(auto, using(crate::proofs::Reopening::sound_once))]
pub fn the_schema_is_found_again()
    ensures { (has_spans : Bool) (s : Schema) (t : Trees) → IsSound (archive_schema has_spans) t → IsSound s t
        → s ≡ archive_schema has_spans }
{}

/// The integer of a pair is that of no other pair of numbers of 32 bits, and integers are in the order of their pairs.
pub fn integers_tell_their_pairs()
    ensures one { (t n u m : ℕ) → IsU32 n → IsU32 m → integer_at (pair_place t n) ≡ integer_at (pair_place u m)
        → (t ≡ u) × (n ≡ m) }
    ensures ordered { (l m : LinkRow) → IsU32 l.no → IsU32 m.no
        → int_cmp (integer_at (link_place l)) (integer_at (link_place m)) ≡ pair_cmp l m }
{}

/// Good tables have no line of a number without a row in `record`, no span of one, nothing that one is looked for by,
/// and no such row of a batch that is not there.
pub fn rows_are_owned()
    ensures { (rows : Rows) (t : Trees) → Good rows t → AreOwned rows }
{}

/// No call changes or removes a value of before: the one that writes such a value puts it after all others, under a key
/// above theirs, and each other call leaves all of them.
pub fn values_of_before_stay()
    ensures above { (rows : Rows) (t : Trees) → Good rows t → IsAboveAll rows.pasts }
    ensures others { OthersLeavePasts }
{}
