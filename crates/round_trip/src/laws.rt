//! What holds of the places of records in an export.
//!
//! What a file with the forest of an export is read as.
//!
//! What holds of the forest of a sound archive.
//!
//! What holds of an export that is read into an empty archive.

ghost use Rattle.round_trip.specs.OrderLaws.{HouseholdsHaveAll, IsRenamed, NodesAreFound, OrdersAreKept};
ghost use Rattle.archive_state.specs.Content.{Content};
ghost use Rattle.archive_state.specs.Sound.{IsSound};
ghost use Rattle.round_trip.specs.ReadingLaws.{DraftsComeBack, IsKnownAgain, SidesComeBack};
ghost use Rattle.std.specs.Prelude.{ℕ, List};
ghost use Rattle.record_text.specs.Text.{IsText};
ghost use Rattle.gedcom_tree.specs.Text.{IsForest};
ghost use Rattle.gedcom_export.specs.Forest.{exported};
ghost use Rattle.round_trip.specs.SameLaws.{ComesBack, FileComesBack, ImportHasAll, ReportsNothing};

use archive_state::laws::a_sound_archive_is_readable;
use gedcom_tree::laws::a_text_is_read_again;
use record_shapes::laws::{
    a_record_is_read_again, the_families_of_a_person_are_found, the_path_of_a_place_is_found,
};

/// Every record of a sound archive stands once in its export.
pub fn an_export_has_all_records()
    ensures { HouseholdsHaveAll }
{}

/// The new numbers of two records of one kind at level 0, or of two events or two citations of one record, are in the
/// order of their numbers.
pub fn an_export_keeps_orders()
    ensures { OrdersAreKept }
{}

/// The lines of records whose numbers are changed are the lines of those records, with their numbers changed alike.
pub fn the_lines_of_renamed_records_are_renamed()
    ensures { IsRenamed }
{}

/// The nodes of an export are found again in a file that has its forest, with positions in place of numbers.
pub fn the_nodes_of_an_export_are_found()
    ensures { NodesAreFound }
{}

/// Each record has in the file the tag and the path that it has in the archive.
pub fn tags_and_paths_come_back()
    ensures { (c : Content) → IsSound c → IsKnownAgain c }
{
    a_sound_archive_is_readable();
    the_path_of_a_place_is_found();
}

/// A family gets both sides of each membership again.
pub fn both_sides_of_memberships_come_back()
    ensures { SidesComeBack }
{
    a_sound_archive_is_readable();
    the_families_of_a_person_are_found();
}

/// The nodes of an export are read as the records of the archive, with positions of nodes for numbers.
pub fn records_come_back_with_positions()
    ensures { DraftsComeBack }
{
    a_sound_archive_is_readable();
    a_record_is_read_again();
    the_path_of_a_place_is_found();
    the_families_of_a_person_are_found();
}

/// The export of a sound archive is a forest, where the name of the society is a text.
pub fn an_export_is_a_forest()
    ensures { (c : Content) (society : List ℕ) → IsSound c → IsText society → IsForest (exported c.records society) }
{}

/// The import of an export into an empty archive is not refused, and has all records with new numbers.
pub fn an_import_of_an_export_has_all_records()
    ensures { ImportHasAll }
{
    records_come_back_with_positions();
}

/// Nothing is reported of the import of an export.
pub fn nothing_is_reported_of_an_export()
    ensures { ReportsNothing }
{
    a_sound_archive_is_readable();
    a_record_is_read_again();
    the_path_of_a_place_is_found();
    the_families_of_a_person_are_found();
}

/// An export that is read into an empty archive gives the same records, up to their numbers, and nothing is reported.
pub fn an_export_gives_the_same_records()
    ensures { ComesBack }
{
    an_import_of_an_export_has_all_records();
    nothing_is_reported_of_an_export();
    an_export_keeps_orders();
}

/// The text of an export, where it has at most 67,108,864 bytes, reads as a forest, and what that gives in an empty
/// archive are the same records, up to their numbers; nothing is reported.
pub fn an_exported_file_gives_the_same_records()
    ensures { FileComesBack }
{
    an_export_is_a_forest();
    a_text_is_read_again();
    an_export_gives_the_same_records();
}
