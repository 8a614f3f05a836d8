//! Laws of the nodes that become records, over the definitions that the contracts cite.
//!
//! What holds of the definitions.

ghost use Rattle.std.specs.Prelude.{◌≡◌, Bool, List, ℕ, Option};
ghost use Rattle.std.specs.List.{filter};
ghost use Rattle.import_definitions.specs.Nodes.{FileNode};
ghost use Rattle.import_definitions.specs.Roots.{is_kept, kept, IsGreatest};
ghost use Rattle.archive_state.specs.Content.{Records};
ghost use Rattle.archive_state.specs.Paths.{HasPath, IsLowest};
ghost use Rattle.import_definitions.specs.Made.{lowest_place};

/// The nodes that become records are the greatest set of nodes in which each whose value counts and is a pointer
/// names one of the set. There is only one such set.
pub fn kept_nodes_are_the_greatest_set()
    ensures greatest { (ts : List FileNode) → IsGreatest ts (is_kept ts) }
    ensures one { (ts : List FileNode) (P : FileNode → Bool) → IsGreatest ts P → kept ts ≡ filter P ts }
{}

/// The lowest number of a place that has a path is the one that the batch is made by.
pub fn the_lowest_place_is_one()
    ensures { (m : Records) (path : List ℕ) (found : Option ℕ) → IsLowest (λ n. HasPath m n path) found
        → found ≡ lowest_place m path }
{}
