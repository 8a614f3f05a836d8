//! The tag of an event, which its owner may have.

ghost use Rattle.std.specs.Prelude.{◌≡◌, IfErr, false};
ghost use Rattle.archive_state.specs.Looks.{Agrees, CountsFailures, is_failure, is_stop};
ghost use Rattle.archive_state.specs.Views.{On};
ghost use Rattle.command_checks.specs.Checks as checks;

use crate::looks::{Owner, owner_at};
use crate::places::check_place;
use archive_state::View;
use record_shapes::{is_family_tag, is_person_tag};
use record_text::{RefusalKind, Tag};
use std::alloc::Global;

/// The text as the tag of an event, whose owner may have it, and whose place an event may have.
pub fn tag_of<V: View>(
    alloc: Global,
    view: &mut V,
    owner: u32,
    place: Option<u32>,
    tag: &str,
) -> Result<Tag, RefusalKind>
    ensures decides { On V.View view.old view.new
        (λ c. Agrees is_stop result (checks.event_tag c owner place tag.now)) }
    ensures counts { CountsFailures (V.failed view.old) (V.failed view.new) result }
{
    let owner = owner_at(alloc, view, owner)?;
    check_place(alloc, view, place)?;
    tag_in(alloc, owner, tag)
}

/// The word as the tag of an event of such an owner.
fn tag_in(alloc: Global, owner: Owner, word: &str) -> Result<Tag, RefusalKind>
    ensures decides { Agrees is_stop result (checks.tag_in owner word.now) }
    ensures memory { IfErr result (λ e. is_failure e ≡ false) }
{
    let is_one = match owner {
        Owner::Person => is_person_tag(word),
        Owner::Family => is_family_tag(word),
    };
    if !is_one {
        return Err(RefusalKind::NotOfKind);
    }
    Ok(Tag::of_word(alloc, word)?)
}
