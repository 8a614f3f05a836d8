//! Records and lines that give back what memory their lists do not need: a list that grows has room for four at least.

ghost use Rattle.std.specs.Prelude.{◌≡◌};

use record_kinds::{
    Child, Citation, Entry, Event, EventPlace, Family, Name, Other, Participant, Partner, Person,
};
use stored_lines::Carried;

/// What has lists.
pub(crate) trait Fit {
    /// Gives back what memory its lists do not need.
    fn fit(&mut self)
        ensures { self.new ≡ self.old };
}

/// The same of a list and of all that is in it.
pub(crate) fn fit_all<P: Fit>(parts: &mut Vec<P>)
    ensures { parts.new.items ≡ parts.old.items }
{
    parts.shrink_to_fit();
    for part in parts.iter_mut() {
        part.fit();
    }
}

impl Fit for Carried {
    fn fit(&mut self) {
        fit_line(self);
    }
}

/// The same of the lines below a line.
fn fit_line(line: &mut Carried)
    ensures { line.new ≡ line.old }
{
    line.children.shrink_to_fit();
    for child in line.children.iter_mut() {
        fit_line(child);
    }
}

impl Fit for Name {
    fn fit(&mut self) {
        fit_all(&mut self.carried);
    }
}

impl Fit for Person {
    fn fit(&mut self) {
        fit_all(&mut self.names);
        fit_all(&mut self.carried);
    }
}

impl Fit for Partner {
    fn fit(&mut self) {
        fit_all(&mut self.carried);
        fit_all(&mut self.carried_by_person);
    }
}

impl Fit for Child {
    fn fit(&mut self) {
        fit_all(&mut self.carried);
        fit_all(&mut self.carried_by_person);
    }
}

impl Fit for Family {
    fn fit(&mut self) {
        fit_all(&mut self.partners);
        fit_all(&mut self.children);
        fit_all(&mut self.carried);
    }
}

impl Fit for Citation {
    fn fit(&mut self) {
        fit_all(&mut self.carried);
    }
}

impl Fit for Participant {
    fn fit(&mut self) {
        fit_all(&mut self.carried);
    }
}

impl Fit for EventPlace {
    fn fit(&mut self) {
        fit_all(&mut self.carried);
    }
}

/// The same of the place of an event.
fn fit_place(place: &mut Option<EventPlace>)
    ensures { place.new ≡ place.old }
{
    if let Some(place) = place {
        place.fit();
    }
}

impl Fit for Event {
    fn fit(&mut self) {
        fit_place(&mut self.place);
        fit_all(&mut self.participants);
        fit_all(&mut self.carried);
    }
}

impl Fit for Entry {
    fn fit(&mut self) {
        self.mentions.shrink_to_fit();
    }
}

impl Fit for Other {
    fn fit(&mut self) {
        fit_all(&mut self.carried);
    }
}
