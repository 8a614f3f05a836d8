//! What holds of the forest of an archive.
//!
//! What an index tells of the archive whose records it shows.

ghost use Rattle.std.specs.Prelude.{◌≡◌, ℕ, ◌++◌, List};
ghost use Rattle.std.specs.List.{flat_map};
ghost use Rattle.gedcom_tree.specs.Text.{line_text, text, trailer};
ghost use Rattle.archive_state.specs.Content.{Records};
ghost use Rattle.node_writing.specs.Header.{header};
ghost use Rattle.node_writing.specs.Pages.{nodes_text};
ghost use Rattle.gedcom_export.specs.Forest.{exported};
ghost use Rattle.gedcom_export.specs.Order.{households, Numbered, of_rank};
ghost use Rattle.gedcom_export.specs.Pages.{household_page};
ghost use Rattle.std.specs.FinMap.{entries};
ghost use Rattle.gedcom_export.specs.Around.{around};
ghost use Rattle.gedcom_export.specs.Names.{name_of};
ghost use Rattle.gedcom_export.specs.Index.{Index, IsIndexOf, numbers, numbers_in, place_in_export};
ghost use Rattle.gedcom_export.specs.Shown.{around_in, names_in};
ghost use Rattle.gedcom_export.specs.declared.rank.Rank.{Rank};

/// The text of an export is that of the header, of one record after the other with what it owns, and the trailer.
pub fn the_text_of_an_export_is_that_of_its_records()
    ensures { (m : Records) (society : List ℕ) → text (exported m society)
        ≡ nodes_text 0 (header society) ++ (flat_map (household_page m) (households m) ++ line_text trailer) }
{}

/// Names, paths and families are those of the archive.
pub fn an_index_shows_the_archive()
    ensures names { (m : Records) (i : Index) → IsIndexOf (entries m) i → (n : ℕ) → names_in i n ≡ name_of m n }
    ensures paths { (m : Records) (i : Index) → IsIndexOf (entries m) i → (n : ℕ)
        → (around_in i).path n ≡ (around m).path n }
    ensures child_in { (m : Records) (i : Index) → IsIndexOf (entries m) i → (n : ℕ)
        → (around_in i).child_in n ≡ (around m).child_in n }
    ensures partner_in { (m : Records) (i : Index) → IsIndexOf (entries m) i → (n : ℕ)
        → (around_in i).partner_in n ≡ (around m).partner_in n }
{}

/// The numbers of a kind are those of its records, in their order.
pub fn the_numbers_of_a_kind_are_all()
    ensures { (es : List Numbered) (i : Index) → IsIndexOf es i → (k : Rank)
        → numbers_in i k ≡ numbers (of_rank es (place_in_export k)) }
{}
