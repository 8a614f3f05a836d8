//! Records, field by field: a line for each field, under the name that the type has for it. An item of a list has a
//! line for each of its fields, and carried lines come after a line with the name of their field.

use crate::lines::{say_carried, say_carried_value};
use record_fields::Date;
use record_kinds::{
    Citation, Entry, Event, Family, Mention, Other, Person, Place, Record, Repo, Source,
};
use row_words::Answer;

/// Says the kind of the record and its fields.
pub(crate) fn say_record(record: &Record, out: &mut Answer) {
    match record {
        Record::Place(place) => say_place(place, out),
        Record::Repo(repo) => say_repo(repo, out),
        Record::Source(source) => say_source(source, out),
        Record::Person(person) => say_person(person, out),
        Record::Family(family) => say_family(family, out),
        Record::Citation(citation) => say_citation(citation, out),
        Record::Event(event) => say_event(event, out),
        Record::Entry(entry) => say_entry(entry, out),
        Record::Other(other) => say_other(other, out),
    }
}

fn say_place(place: &Place, out: &mut Answer) {
    out.say_words("place name ", place.name.as_str());
    out.say_number("parent ", place.parent);
    say_carried("carried", &place.carried, out);
}

fn say_repo(repo: &Repo, out: &mut Answer) {
    out.say_text("repo name ", &repo.name);
    say_carried("carried", &repo.carried, out);
}

fn say_source(source: &Source, out: &mut Answer) {
    out.say_text("source title ", &source.title);
    out.say_text("author ", &source.author);
    out.say_text("publisher ", &source.publisher);
    for holding in &source.holdings {
        out.say_number("holding repo ", Some(holding.repo));
        out.say_text("holding call_number ", &holding.call_number);
        say_carried("holding carried", &holding.carried, out);
    }
    say_carried("carried", &source.carried, out);
}

fn say_person(person: &Person, out: &mut Answer) {
    out.say_line("person");
    for name in &person.names {
        out.say_words("name text ", name.text.as_str());
        say_carried("name carried", &name.carried, out);
    }
    out.say("sex ");
    out.say_line(match person.sex {
        Some(sex) => sex.as_str(),
        None => "-",
    });
    say_carried("carried", &person.carried, out);
}

fn say_family(family: &Family, out: &mut Answer) {
    out.say_line("family");
    for partner in &family.partners {
        out.say("partner ");
        out.say_line(partner.partnership.as_str());
        out.say_number("partner person ", Some(partner.person));
        say_carried("partner carried", &partner.carried, out);
        say_carried("partner carried_by_person", &partner.carried_by_person, out);
    }
    for child in &family.children {
        out.say_number("child person ", Some(child.person));
        say_carried("child carried", &child.carried, out);
        say_carried("child carried_by_person", &child.carried_by_person, out);
    }
    say_carried("carried", &family.carried, out);
}

fn say_citation(citation: &Citation, out: &mut Answer) {
    out.say_number("citation owner ", Some(citation.owner));
    out.say_number("source ", Some(citation.source));
    out.say_text("page ", &citation.page);
    out.say("quality ");
    out.say_line(match citation.quality {
        Some(quality) => quality.as_str(),
        None => "-",
    });
    say_carried("carried", &citation.carried, out);
}

fn say_event(event: &Event, out: &mut Answer) {
    out.say_number("event owner ", Some(event.owner));
    out.say_words("tag ", event.tag.as_str());
    out.say_words("value ", event.value.as_str());
    say_date(&event.date, out);
    match &event.place {
        Some(place) => {
            out.say_number("place ", Some(place.place));
            say_carried("place carried", &place.carried, out);
        }
        None => out.say_line("place -"),
    }
    for participant in &event.participants {
        out.say_number("participant person ", Some(participant.person));
        out.say_words("participant role ", participant.role.as_str());
        say_carried("participant carried", &participant.carried, out);
    }
    say_carried("carried", &event.carried, out);
}

fn say_date(date: &Option<Date>, out: &mut Answer) {
    match date {
        Some(date) => out.say_words("date ", date.as_str()),
        None => out.say_line("date -"),
    }
}

fn say_entry(entry: &Entry, out: &mut Answer) {
    out.say("entry ");
    out.say_line(entry.kind.as_str());
    out.say_number("source ", Some(entry.source));
    out.say_words("page ", entry.page.as_str());
    out.say_number("item ", Some(entry.item.number));
    say_date(&entry.date, out);
    out.say_number("place ", entry.place);
    out.say_words("text ", entry.text.as_str());
    for mention in &entry.mentions {
        say_mention(mention, out);
    }
}

fn say_mention(mention: &Mention, out: &mut Answer) {
    out.say("mention ");
    out.say_line(mention.role.as_str());
    out.say_words("mention name ", mention.name.as_str());
    match &mention.link {
        Some(link) => {
            out.say_number("link person ", Some(link.person));
            out.say_words("link reason ", link.reason.as_str());
        }
        None => out.say_line("link -"),
    }
}

fn say_other(other: &Other, out: &mut Answer) {
    out.say_words("other tag ", other.tag.as_str());
    say_carried_value("value ", &other.value, out);
    say_carried("carried", &other.carried, out);
}
