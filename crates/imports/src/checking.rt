//! Files refused for a second entry of one key.

ghost use Rattle.std.specs.Prelude.{◌≡◌, ◌<◌, ◌^◌, IfErr, None, length, map, true};
ghost use Rattle.archive_state.specs.Looks.{is_stop, Agrees};
ghost use Rattle.record_text.specs.declared.refusal.RefusalKind.TheVariants as refusal;
ghost use Rattle.node_reading.specs.Trees.{draft_tree};
ghost use Rattle.import_definitions.specs.Lines.{roots as roots_in};
ghost use Rattle.import_definitions.specs.Made.{line_of};
ghost use Rattle.import_definitions.specs.Sides.{drafts_from};
ghost use Rattle.imports.specs.Seconds.{refused_second, second_position};

use crate::seconds::second_entry;
use import_definitions::Roots;
use node_reading::Draft;
use record_text::{Refusal, RefusalKind};
use std::alloc::Global;

/// That no two entries of a file have one source, kind, page and item. 60, at the line of the second: two have. The
/// drafts are those of all nodes, in order.
pub fn check_entries(alloc: Global, roots: &Roots<'_>, drafts: &[Draft]) -> Result<(), Refusal>
    requires few { length roots.now < 2 ^ 32 }
    requires read { map draft_tree drafts.now ≡ drafts_from (roots_in roots.now) 0 (roots_in roots.now) }
    ensures decides { Agrees (λ (e : Refusal). is_stop e.kind) result
        (refused_second roots.now (second_position roots.now)) }
    ensures stops { IfErr result (λ e. is_stop e.kind ≡ true → e ≡ record { kind = refusal.OutOfMemory; at = None }) }
{
    match second_entry(alloc, drafts)? {
        None => Ok(()),
        Some(position) => Err(Refusal {
            kind: RefusalKind::DuplicateEntry,
            at: line_at(roots, position),
        }),
    }
}

/// The line of the node at a position.
fn line_at(roots: &Roots<'_>, position: usize) -> Option<u32>
    ensures { result ≡ line_of roots.now position }
{
    match roots.nodes().get(position) {
        Some(node) => Some(node.line),
        None => None,
    }
}
