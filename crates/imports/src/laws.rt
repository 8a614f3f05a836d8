//! What holds of an import, over the definition of what a forest makes of an archive.
//!
//! What holds of the drafts of a file.
//!
//! What holds of imports, over the definitions that the contracts cite.

ghost use Rattle.imports.specs.Imported.{ImportsStaySound, NumbersAreNew, RecordsStand};
ghost use Rattle.imports.specs.Read.{FilesHaveNodes, NodesAreRead};
ghost use Rattle.std.specs.Prelude.{◌≡◌, ◌≤◌, ℕ, List, length, Ok};
ghost use Rattle.std.specs.BTreeMap.{BTreeMap};
ghost use Rattle.std.specs.Global.{Global};
ghost use Rattle.std.specs.declared.string.String.{String};
ghost use Rattle.stored_lines.specs.Line.{Lines};
ghost use Rattle.archive_state.specs.Content.{Content};
ghost use Rattle.record_shapes.specs.Lists.{EachOf};
ghost use Rattle.gedcom_tree.specs.Forest.{Item};
ghost use Rattle.import_definitions.specs.Lines.{roots as roots_in};
ghost use Rattle.import_definitions.specs.Nodes.{FileNode};
ghost use Rattle.import_definitions.specs.Roots.{candidates, kept};
ghost use Rattle.import_definitions.specs.Views.{AreInFile};
ghost use Rattle.import_definitions.specs.Made.{drawing, lowest_place, places, unless_full};
ghost use Rattle.import_definitions.specs.Numbers as numbers;
ghost use Rattle.import_definitions.specs.Positions.{paths, position_of};
ghost use Rattle.import_numbers.specs.Views.{places_of, under};
ghost use Rattle.imports.specs.Drafts.{SeeksByPaths, draw_each};
ghost use Rattle.import_definitions.specs.Sides.{drafts_from};
ghost use Rattle.imports.specs.Drawing.{batch_or_full, with_no_line};
ghost use Rattle.receipts.specs.declared.answer.Answer.{Answer};
ghost use Rattle.archive_state.specs.Sound.{IsSound};
ghost use Rattle.command_checks.specs.Numbers.{Draws, UsesNoneAgain};
ghost use Rattle.gedcom_tree.specs.Text.{IsForest};
ghost use Rattle.imports.specs.Imports.{import_step};

/// The numbers that an import draws count up from the next number of the archive to that of the batch, which is at most
/// 4,294,967,296.
pub fn an_import_draws_new_numbers()
    ensures { NumbersAreNew }
{}

/// After an import into a sound archive each record of before stands where it stood, each record of the batch stands at
/// its number, and nothing else was put there.
pub fn an_import_changes_no_record()
    ensures { RecordsStand }
{}

/// The nodes of a file that become records have tags that may be in a record, texts, levels up to 98, and pointers that
/// name such nodes; none of them is a trailer.
pub fn the_nodes_of_a_file_are_fit()
    ensures { FilesHaveNodes }
{}

/// Of nodes whose lines have tags that may be in a record, texts, and levels up to 98, each record that is read keeps
/// every rule on one record that asks for no other: normal names, members once, tags, texts, tags of events, mentions
/// and their roles, carried lines that no field would take, the shape of a record of no other kind, and levels.
pub fn what_is_read_keeps_the_rules()
    ensures { NodesAreRead }
{}

/// An import of any forest into a sound archive leaves it sound.
pub fn an_import_leaves_an_archive_sound()
    ensures { ImportsStaySound }
{}

/// The nodes that become records are no more than the lines of a file.
pub fn a_file_has_no_more_nodes_than_lines()
    ensures { (f : List Item) → length (kept (candidates f)) ≤ length f }
{}

/// What the nodes of a file are read as seeks places only by paths.
pub fn the_drafts_of_a_file_seek_by_paths()
    ensures { (ks : List FileNode) → AreInFile ks
        → EachOf SeeksByPaths (drafts_from (roots_in ks) 0 (roots_in ks)) }
{}

/// The numbers that are drawn for the drafts of nodes are those that an import draws for the nodes.
pub fn the_numbers_of_drafts_are_those_of_nodes()
    ensures { (rs : Lines) (w : numbers.Places) (next : ℕ)
        → drawing next w rs ≡ draw_each w 0 (numbers.begun next) (drafts_from rs 0 rs) }
{}

/// The batch of the drafts of nodes is what an import makes of the nodes, a second entry of one key apart: the file has
/// the first place of each path.
pub fn the_batch_of_drafts_is_that_of_nodes()
    ensures { (c : Content) (rs : Lines) (file : BTreeMap (String Global) ℕ)
        → ((path : List ℕ) → under file path ≡ position_of path 0 (paths rs))
        → unless_full (places (lowest_place c.records) rs) (drawing c.next (places (lowest_place c.records) rs) rs)
        ≡ with_no_line (batch_or_full (places_of c file)
        (draw_each (places_of c file) 0 (numbers.begun c.next) (drafts_from rs 0 rs))) }
{}

/// An import leaves a sound archive sound. Its nodes are a forest: the type of a forest keeps that, and here any nodes
/// are meant.
pub fn an_import_keeps_an_archive_sound()
    ensures { (c after : Content) (f : List Item) (a : Answer) → IsForest f → IsSound c
        → import_step c f ≡ Ok (after, a) → IsSound after }
{}

/// An accepted import draws the numbers from the next one of before up to that of after, each for a record, and is
/// answered with the first of them and their count.
pub fn an_answer_has_the_numbers_of_the_records()
    ensures { (c after : Content) (f : List Item) (a : Answer) → import_step c f ≡ Ok (after, a) → Draws c a after }
{}

/// And it uses no number again.
pub fn an_import_uses_no_number_again()
    ensures { (c after : Content) (f : List Item) (a : Answer) → import_step c f ≡ Ok (after, a)
        → UsesNoneAgain c after }
{}
