//! One function for each table of rows.

ghost use Rattle.std.specs.Prelude.{◌≡◌, ◌&&◌, ◌||◌, codes};
ghost use Rattle.record_shapes.specs.Fields as fields;
ghost use Rattle.record_shapes.specs.Forms as forms;
ghost use Rattle.record_shapes.specs.Forms.{tagged};

use crate::forms::{is_bare, is_text, text_of};
use crate::known::{Known, Named, names_a};
use crate::tags::{has_family_tag, has_person_tag};
use crate::words::{quality_of, sex_of};
use record_shapes::Field;
use stored_lines::Carried;

/// Whether the line has that tag.
pub(crate) fn is_tagged(line: &Carried, tag: &str) -> bool
    ensures { result ≡ forms.tagged tag.now line.now }
{
    line.tag.as_str() == tag
}

/// Below a repository.
pub fn repo_field(line: &Carried) -> Field
    ensures { result ≡ fields.repo_field line.now }
{
    if is_tagged(line, "NAME") && is_bare(line) {
        Field::Name
    } else {
        Field::Carried
    }
}

/// Below a pointer to a repository.
pub fn holding_field(line: &Carried) -> Field
    ensures { result ≡ fields.holding_field line.now }
{
    if is_tagged(line, "CALN") && is_bare(line) {
        Field::CallNumber
    } else {
        Field::Carried
    }
}

/// Below a source.
pub fn source_field<K: Known>(known: &K, line: &Carried) -> Field
    ensures { result ≡ fields.source_field (K.known known.now) line.now }
{
    if is_tagged(line, "TITL") && is_bare(line) {
        Field::Title
    } else if is_tagged(line, "AUTH") && is_bare(line) {
        Field::Author
    } else if is_tagged(line, "PUBL") && is_bare(line) {
        Field::Publisher
    } else if is_tagged(line, "REPO") && names_a(known, Named::Repo, line) {
        Field::Holding
    } else {
        Field::Carried
    }
}

/// A pointer to a source.
pub fn is_citation<K: Known>(known: &K, line: &Carried) -> bool
    ensures { result ≡ fields.is_citation (K.known known.now) line.now }
{
    is_tagged(line, "SOUR") && names_a(known, Named::Source, line)
}

/// Below a citation.
pub fn citation_field(line: &Carried) -> Field
    ensures { result ≡ fields.citation_field line.now }
{
    if is_tagged(line, "PAGE") && is_bare(line) {
        Field::Page
    } else if is_tagged(line, "QUAY") && is_bare(line) && quality_of(line).is_some() {
        Field::Quality
    } else {
        Field::Carried
    }
}

/// Below a person.
pub fn person_field<K: Known>(known: &K, line: &Carried) -> Field
    ensures { result ≡ fields.person_field (K.known known.now) line.now }
{
    if is_tagged(line, "NAME") && is_text(line) {
        Field::Name
    } else if is_tagged(line, "SEX") && is_bare(line) && sex_of(line).is_some() {
        Field::Sex
    } else if has_person_tag(line) && is_text(line) {
        Field::Event
    } else if is_side(known, line) {
        Field::Side
    } else if is_citation(known, line) {
        Field::Citation
    } else {
        Field::Carried
    }
}

/// A pointer of a person to a family.
fn is_side<K: Known>(known: &K, line: &Carried) -> bool
    ensures { result ≡ ((tagged (codes "FAMC") line.now || tagged (codes "FAMS") line.now)
        && forms.names_a (codes "FAM") (K.known known.now) (forms.value_of line.now)) }
{
    (is_tagged(line, "FAMC") || is_tagged(line, "FAMS")) && names_a(known, Named::Family, line)
}

/// Below a family.
pub fn family_field<K: Known>(known: &K, line: &Carried) -> Field
    ensures { result ≡ fields.family_field (K.known known.now) line.now }
{
    if is_member(known, line) {
        Field::Member
    } else if has_family_tag(line) && is_text(line) {
        Field::Event
    } else if is_citation(known, line) {
        Field::Citation
    } else {
        Field::Carried
    }
}

/// A pointer of a family to a person.
fn is_member<K: Known>(known: &K, line: &Carried) -> bool
    ensures { result ≡ ((tagged (codes "HUSB") line.now ||
        (tagged (codes "WIFE") line.now || tagged (codes "CHIL") line.now))
        && forms.names_a (codes "INDI") (K.known known.now) (forms.value_of line.now)) }
{
    (is_tagged(line, "HUSB") || is_tagged(line, "WIFE") || is_tagged(line, "CHIL"))
        && names_a(known, Named::Person, line)
}

/// Below a line that names who took part.
pub fn participant_field(line: &Carried) -> Field
    ensures { result ≡ fields.participant_field line.now }
{
    if is_tagged(line, "_ROLE") && is_bare(line) && !text_of(line).is_empty() {
        Field::Role
    } else {
        Field::Carried
    }
}
