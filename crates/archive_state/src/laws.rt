//! What holds of the numbers in a record.
//!
//! What holds between the calls.

ghost use Rattle.std.specs.Prelude.{◌≡◌, ℕ, ◌↔◌, List, Option, Some};
ghost use Rattle.record_kinds.specs.declared.record.Record.{Record};
ghost use Rattle.records.specs.Stored.{stored};
ghost use Rattle.archive_state.specs.Links.{is_among, links};
ghost use Rattle.archive_state.specs.Stored.{some_line_names};
ghost use Rattle.record_fields.specs.declared.entry_words.EntryKind.{EntryKind};
ghost use Rattle.record_fields.specs.declared.item.Item.{Item};
ghost use Rattle.stored_lines.specs.Tree.{Tree};
ghost use Rattle.record_shapes.specs.Readable.{IsReadable};
ghost use Rattle.record_shapes.specs.Shapes.{Around};
ghost use Rattle.archive_state.specs.Content.{Content, Records};
ghost use Rattle.archive_state.specs.Entries.{IsEntryAt};
ghost use Rattle.archive_state.specs.Known.{known_before, known_of, path_of};
ghost use Rattle.archive_state.specs.Owned.{IsAround, IsWithOwned};
ghost use Rattle.archive_state.specs.Paths.{HasPath, IsLowest};
ghost use Rattle.archive_state.specs.Sound.{IsSound};

/// The lines that a record is kept as have the numbers that the record names, and no others.
pub fn lines_have_the_numbers_that_a_record_names()
    ensures { (r : Record) (n : ℕ) → some_line_names n (stored r) ≡ is_among n (links r) }
{}

/// A place has one path at the most.
pub fn a_place_has_one_path()
    ensures { (m : Records) (n : ℕ) (a b : List ℕ) → HasPath m n a → HasPath m n b → a ≡ b }
{}

/// The path of a place is the one that is known of it, by which GEDCOM lines are read and written.
pub fn the_path_of_a_place_is_known()
    ensures { (m : Records) (n : ℕ) (path : List ℕ) → HasPath m n path ↔ (path_of m n ≡ Some path) }
{}

/// In a sound archive at most one entry has a given source, kind, page and item.
pub fn a_key_has_one_entry()
    ensures { (c : Content) (source : ℕ) (kind : EntryKind) (page : List ℕ) (item : Item) (n k : ℕ) → IsSound c
        → IsEntryAt c.records source kind page item n → IsEntryAt c.records source kind page item k → n ≡ k }
{}

/// In a sound archive the lowest number of an entry of a key is the only one: it is n exactly where an entry of that
/// source, kind, page and item stands at n.
pub fn the_entry_of_a_key_is_found()
    ensures { (c : Content) (source : ℕ) (kind : EntryKind) (page : List ℕ) (item : Item) (found : Option ℕ) (n : ℕ)
        → IsSound c → IsLowest (λ k. IsEntryAt c.records source kind page item k) found
        → (found ≡ Some n) ↔ IsEntryAt c.records source kind page item n }
{}

/// In a sound archive each record that is written at level 0 can be read again from its lines, with the events and
/// citations that it owns.
pub fn a_sound_archive_is_readable()
    ensures { (c : Content) (a : Around) (n : ℕ) (t : Tree Record) → IsSound c → IsAround c.records a
        → IsWithOwned c.records n t
        → IsReadable (known_before c.records n) (known_of c.records) a n t }
{}
