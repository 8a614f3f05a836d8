//! A test of each line that a record carries, in all its parts.

ghost use Rattle.std.specs.Prelude.{◌≡◌, ◌++◌, Bool};
ghost use Rattle.std.specs.List.{list_all};
ghost use Rattle.stored_lines.specs.Line.{Line};
ghost use Rattle.stored_lines.specs.Tree.{label};
ghost use Rattle.record_kinds.specs.Model as model;
ghost use Rattle.record_kinds.specs.declared.record.Record.TheVariants as kind;
ghost use Rattle.archive_state.specs.Carried as parts;
ghost use Rattle.record_rules.specs.Lines.{line_all, lines_all};

use record_kinds::{
    Child, Event, EventPlace, Family, Holding, Name, Participant, Partner, Person, Record, Source,
};
use stored_lines::Carried;

/// What is asked of a line by itself.
pub(crate) trait Judge {
    ghost fit: { Self → Line → Bool };

    /// Whether the line is as it is to be; those below it are not looked at.
    fn fits(&self, line: &Carried) -> bool
        ensures { result ≡ fit self.now (label line.now) };
}

/// Whether the line and each below it are as they are to be.
#[tactic(auto, using(crate::proofs::Flat::forest_is))]
fn line_fits<J: Judge>(judge: &J, line: &Carried) -> bool
    ensures { result ≡ line_all (J.fit judge.now) line.now }
{
    if !judge.fits(line) {
        return false;
    }
    'children: for child in &line.children {
        if !line_fits(judge, child) {
            return false;
        }
    }
    true
}

/// Whether each of the lines, and each below them, is as it is to be.
pub(crate) fn lines_fit<J: Judge>(judge: &J, lines: &[Carried]) -> bool
    ensures { result ≡ lines_all (J.fit judge.now) lines.now }
{
    'lines: for line in lines {
        if !line_fits(judge, line) {
            return false;
        }
    }
    true
}

/// Whether each line that the record carries, in all its parts, is as it is to be.
#[tactic(auto, using(crate::proofs::Flat::all_flat, crate::proofs::Flat::all_both))]
pub(crate) fn carried_fit<J: Judge>(judge: &J, record: &Record) -> bool
    ensures { result ≡ lines_all (J.fit judge.now) (parts.carried «record».now) }
{
    match record {
        Record::Place(place) => lines_fit(judge, &place.carried),
        Record::Repo(repo) => lines_fit(judge, &repo.carried),
        Record::Source(source) => source_fits(judge, source),
        Record::Person(person) => person_fits(judge, person),
        Record::Family(family) => family_fits(judge, family),
        Record::Citation(citation) => lines_fit(judge, &citation.carried),
        Record::Event(event) => event_fits(judge, event),
        Record::Entry(_) => true,
        Record::Other(other) => lines_fit(judge, &other.carried),
    }
}

#[tactic(auto, using(crate::proofs::Flat::all_flat, crate::proofs::Flat::all_both))]
fn source_fits<J: Judge>(judge: &J, source: &Source) -> bool
    ensures { result ≡ lines_all (J.fit judge.now) (parts.carried (kind.Source source.now)) }
{
    holdings_fit(judge, &source.holdings) && lines_fit(judge, &source.carried)
}

fn holdings_fit<J: Judge>(judge: &J, holdings: &[Holding]) -> bool
    ensures { result ≡ list_all (λ (h : model.Holding). lines_all (J.fit judge.now) h.carried) holdings.now }
{
    'holdings: for holding in holdings {
        if !lines_fit(judge, &holding.carried) {
            return false;
        }
    }
    true
}

#[tactic(auto, using(crate::proofs::Flat::all_flat, crate::proofs::Flat::all_both))]
fn person_fits<J: Judge>(judge: &J, person: &Person) -> bool
    ensures { result ≡ lines_all (J.fit judge.now) (parts.carried (kind.Person person.now)) }
{
    names_fit(judge, &person.names) && lines_fit(judge, &person.carried)
}

fn names_fit<J: Judge>(judge: &J, names: &[Name]) -> bool
    ensures { result ≡ list_all (λ (n : model.Name). lines_all (J.fit judge.now) n.carried) names.now }
{
    'names: for name in names {
        if !lines_fit(judge, &name.carried) {
            return false;
        }
    }
    true
}

#[tactic(auto, using(crate::proofs::Flat::all_flat, crate::proofs::Flat::family_flat))]
fn family_fits<J: Judge>(judge: &J, family: &Family) -> bool
    ensures { result ≡ lines_all (J.fit judge.now) (parts.family_carried family.now) }
{
    partners_fit(judge, &family.partners)
        && children_fit(judge, &family.children)
        && lines_fit(judge, &family.carried)
}

fn partners_fit<J: Judge>(judge: &J, partners: &[Partner]) -> bool
    ensures { result ≡ list_all (λ (p : model.Partner). lines_all (J.fit judge.now)
        (p.carried ++ p.carried_by_person)) partners.now }
{
    'partners: for partner in partners {
        if !lines_fit(judge, &partner.carried) || !lines_fit(judge, &partner.carried_by_person) {
            return false;
        }
    }
    true
}

fn children_fit<J: Judge>(judge: &J, children: &[Child]) -> bool
    ensures { result ≡ list_all (λ (c : model.Child). lines_all (J.fit judge.now)
        (c.carried ++ c.carried_by_person)) children.now }
{
    'children: for child in children {
        if !lines_fit(judge, &child.carried) || !lines_fit(judge, &child.carried_by_person) {
            return false;
        }
    }
    true
}

#[tactic(auto, using(crate::proofs::Flat::all_flat, crate::proofs::Flat::all_both))]
fn event_fits<J: Judge>(judge: &J, event: &Event) -> bool
    ensures { result ≡ lines_all (J.fit judge.now) (parts.event_carried event.now) }
{
    place_fits(judge, &event.place)
        && participants_fit(judge, &event.participants)
        && lines_fit(judge, &event.carried)
}

fn place_fits<J: Judge>(judge: &J, place: &Option<EventPlace>) -> bool
    ensures { result ≡ lines_all (J.fit judge.now) (parts.place_line_carried place.now) }
{
    match place {
        Some(place) => lines_fit(judge, &place.carried),
        None => true,
    }
}

fn participants_fit<J: Judge>(judge: &J, participants: &[Participant]) -> bool
    ensures { result ≡ list_all (λ (p : model.Participant). lines_all (J.fit judge.now) p.carried) participants.now }
{
    'participants: for participant in participants {
        if !lines_fit(judge, &participant.carried) {
            return false;
        }
    }
    true
}
