//! Drafts that give back what memory their lists do not need, before the next is read.

ghost use Rattle.std.specs.Prelude.{◌≡◌, map};
ghost use Rattle.node_reading.specs.Drafts.{event_tree};
ghost use Rattle.node_reading.specs.Owners.{owned_tree};
ghost use Rattle.node_reading.specs.Trees.{draft_tree};

use crate::fitting::{Fit, fit_all};
use node_reading::{Draft, EventDraft, EventPart, FamilyDraft, Owned, PersonDraft};

impl Fit for EventPart {
    fn fit(&mut self) {
        match self {
            EventPart::Citation(citation) => citation.fit(),
            EventPart::Sought(_) => {}
        }
    }
}

fn fit_event(draft: &mut EventDraft)
    ensures { event_tree draft.new ≡ event_tree draft.old }
{
    draft.event.fit();
    fit_all(&mut draft.parts);
}

fn fit_owned(one: &mut Owned)
    ensures { owned_tree one.new ≡ owned_tree one.old }
{
    match one {
        Owned::Event(draft) => fit_event(draft),
        Owned::Citation(citation) => citation.fit(),
    }
}

fn fit_all_owned(owned: &mut Vec<Owned>)
    ensures { map owned_tree owned.new.items ≡ map owned_tree owned.old.items }
{
    owned.shrink_to_fit();
    for one in owned.iter_mut() {
        fit_owned(one);
    }
}

fn fit_person(draft: &mut PersonDraft)
    ensures person { draft.new.person ≡ draft.old.person }
    ensures owned { map owned_tree draft.new.owned.items ≡ map owned_tree draft.old.owned.items }
{
    draft.person.fit();
    fit_all_owned(&mut draft.owned);
}

fn fit_family(draft: &mut FamilyDraft)
    ensures family { draft.new.family ≡ draft.old.family }
    ensures owned { map owned_tree draft.new.owned.items ≡ map owned_tree draft.old.owned.items }
{
    draft.family.fit();
    fit_all_owned(&mut draft.owned);
}

/// Gives back what memory the lists of a draft do not need.
pub(crate) fn fit_draft(draft: &mut Draft)
    ensures { draft_tree draft.new ≡ draft_tree draft.old }
{
    match draft {
        Draft::Person(draft) => fit_person(draft),
        Draft::Family(draft) => fit_family(draft),
        Draft::Entry(entry) => entry.fit(),
        Draft::Other(other) => other.fit(),
        _ => {}
    }
}
