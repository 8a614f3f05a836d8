//! Lines compared with those of an entry.

ghost use Rattle.std.specs.Prelude.{◌≡◌, ◌∷◌, ◌++◌, [], MatchOption, false, codes, map, option_map, Some};
ghost use Rattle.stored_lines.specs.Line.{Lines};
ghost use Rattle.record_fields.specs.Dated.{date_text};
ghost use Rattle.record_shapes.specs.Entries.{around, same_tree, same_value};
ghost use Rattle.record_shapes.specs.Shapes as shapes;
ghost use Rattle.stored_lines.specs.declared.carried.Value.TheVariants as value;
ghost use Rattle.entry_reading.specs.Guess.{
  are,
  below_mention,
  entry_lines_by,
  from_date,
  from_item,
  from_page,
  from_place,
  from_text,
  link_line,
};

use crate::lines::{below, is_tagged};
use field_rows::{Known, is_childless};
use record_fields::Date;
use record_kinds::{Entry, Link, Mention};
use stored_lines::{Carried, Value};

/// Whether the lines are those of the entry, of which the words of the item are given.
pub(crate) fn are_entry_lines<K: Known>(
    known: &K,
    entry: &Entry,
    item: &str,
    lines: &[Carried],
) -> bool
    ensures { result ≡ are lines.now (entry_lines_by (around (K.known known.now)) entry.now item.now) }
{
    match behind_pointer(lines, "SOUR", entry.source) {
        Some(rest) => are_from_page(known, entry, item, rest),
        None => false,
    }
}

/// Whether the lines are those from that of the page on.
fn are_from_page<K: Known>(known: &K, entry: &Entry, item: &str, lines: &[Carried]) -> bool
    ensures { result ≡ are lines.now (from_page (around (K.known known.now)) entry.now item.now) }
{
    match behind_text(lines, "PAGE", entry.page.as_str()) {
        Some(rest) => are_from_item(known, entry, item, rest),
        None => false,
    }
}

/// Whether the lines are those from that of the item on.
fn are_from_item<K: Known>(known: &K, entry: &Entry, item: &str, lines: &[Carried]) -> bool
    ensures { result ≡ are lines.now (from_item (around (K.known known.now)) entry.now item.now) }
{
    match behind_text(lines, "_ITEM", item) {
        Some(rest) => are_from_date(known, entry, rest),
        None => false,
    }
}

/// Whether the lines are those from that of the date on.
fn are_from_date<K: Known>(known: &K, entry: &Entry, lines: &[Carried]) -> bool
    ensures { result ≡ are lines.now (from_date (around (K.known known.now)) entry.now) }
{
    match behind_date(lines, &entry.date) {
        Some(rest) => are_from_place(known, entry, rest),
        None => false,
    }
}

/// Whether the lines are those from that of the place on.
fn are_from_place<K: Known>(known: &K, entry: &Entry, lines: &[Carried]) -> bool
    ensures { result ≡ are lines.now (from_place (around (K.known known.now)) entry.now) }
{
    match behind_place(known, lines, entry.place) {
        Some(rest) => are_from_text(entry, rest),
        None => false,
    }
}

/// Whether the lines are those from that of the text on.
fn are_from_text(entry: &Entry, lines: &[Carried]) -> bool
    ensures { result ≡ are lines.now (from_text entry.now) }
{
    match behind_text(lines, "TEXT", entry.text.as_str()) {
        Some(rest) => are_mentions(rest, entry.mentions.as_slice()),
        None => false,
    }
}

/// What is after a line of a tag and a text. `None`: the first line is another one.
fn behind_text<'a>(lines: &'a [Carried], tag: &str, text: &str) -> Option<&'a [Carried]>
    ensures { (ks : Lines) → MatchOption result
        (are lines.now (shapes.text_line tag.now text.now ∷ ks) ≡ false)
        (λ rest. are lines.now (shapes.text_line tag.now text.now ∷ ks) ≡ are rest.now ks) }
{
    let (line, rest) = lines.split_first()?;
    if is_text_line(line, tag, text) {
        Some(rest)
    } else {
        None
    }
}

/// What is after a line of a tag that names a record. `None`: the first line is another one.
fn behind_pointer<'a>(lines: &'a [Carried], tag: &str, number: u32) -> Option<&'a [Carried]>
    ensures { (ks : Lines) → MatchOption result
        (are lines.now (shapes.pointer_line tag.now number [] ∷ ks) ≡ false)
        (λ rest. are lines.now (shapes.pointer_line tag.now number [] ∷ ks) ≡ are rest.now ks) }
{
    let (line, rest) = lines.split_first()?;
    if is_pointer_line(line, tag, number) {
        Some(rest)
    } else {
        None
    }
}

/// What is after the line of a date, where there is one. `None`: the first line is another one.
fn behind_date<'a>(lines: &'a [Carried], date: &Option<Date>) -> Option<&'a [Carried]>
    ensures { (ks : Lines) → MatchOption result
        (are lines.now (shapes.text_lines (codes "DATE") (option_map date_text date.now) ++ ks) ≡ false)
        (λ rest. are lines.now (shapes.text_lines (codes "DATE") (option_map date_text date.now) ++ ks)
        ≡ are rest.now ks) }
{
    match date {
        Some(date) => behind_text(lines, "DATE", date.as_str()),
        None => Some(lines),
    }
}

/// What is after the line of a place, where there is one. `None`: the first line is another one.
fn behind_place<'a, K: Known>(
    known: &K,
    lines: &'a [Carried],
    place: Option<u32>,
) -> Option<&'a [Carried]>
    ensures { (ks : Lines) → MatchOption result
        (are lines.now (shapes.entry_place_lines (around (K.known known.now)) place ++ ks) ≡ false)
        (λ rest. are lines.now (shapes.entry_place_lines (around (K.known known.now)) place ++ ks) ≡ are rest.now ks) }
{
    match place {
        Some(number) => behind_said(lines, known.path(number).unwrap_or(""), number),
        None => Some(lines),
    }
}

/// What is after the line of a place with its path and number. `None`: the first line is another one.
fn behind_said<'a>(lines: &'a [Carried], path: &str, number: u32) -> Option<&'a [Carried]>
    ensures { (ks : Lines) → MatchOption result
        (are lines.now (shapes.line (codes "PLAC") (value.Text path.now) (shapes.loc_line number ∷ []) ∷ ks) ≡ false)
        (λ rest. are lines.now
        (shapes.line (codes "PLAC") (value.Text path.now) (shapes.loc_line number ∷ []) ∷ ks) ≡ are rest.now ks) }
{
    let (line, rest) = lines.split_first()?;
    if is_said_line(line, path, number) {
        Some(rest)
    } else {
        None
    }
}

/// Whether there are no lines.
#[tactic(auto, using(crate::proofs::Compared::end_is))]
fn is_end(lines: &[Carried]) -> bool
    ensures { result ≡ are lines.now [] }
{
    lines.is_empty()
}

/// Whether a line is that of a place with its path and number.
#[tactic(auto, using(crate::proofs::Compared::tree_is))]
fn is_said_line(line: &Carried, path: &str, number: u32) -> bool
    ensures { result
        ≡ same_tree line.now (shapes.line (codes "PLAC") (value.Text path.now) (shapes.loc_line number ∷ [])) }
{
    is_tagged(line, "PLAC") && has_text(&line.value, path) && is_loc_alone(below(line), number)
}

/// Whether there is one line, which names that place.
fn is_loc_alone(lines: &[Carried], number: u32) -> bool
    ensures { result ≡ are lines.now (shapes.loc_line number ∷ []) }
{
    match behind_pointer(lines, "_LOC", number) {
        Some(rest) => is_end(rest),
        None => false,
    }
}

/// Whether a value is that text.
fn has_text(held: &Value, text: &str) -> bool
    ensures { result ≡ same_value held.now (value.Text text.now) }
{
    match held {
        Value::Text(found) => found.as_str() == text,
        Value::Ref(_) => false,
    }
}

/// Whether a value is the pointer to that record.
fn has_number(held: &Value, number: u32) -> bool
    ensures { result ≡ same_value held.now (value.Ref number) }
{
    match held {
        Value::Text(_) => false,
        Value::Ref(found) => *found == number,
    }
}

/// Whether a line is that of a tag and a text, with none below it.
#[tactic(auto, using(crate::proofs::Compared::bare_tree_is))]
fn is_text_line(line: &Carried, tag: &str, text: &str) -> bool
    ensures { result ≡ same_tree line.now (shapes.text_line tag.now text.now) }
{
    is_tagged(line, tag) && has_text(&line.value, text) && is_childless(line)
}

/// Whether a line is that of a tag and a pointer, with none below it.
#[tactic(auto, using(crate::proofs::Compared::bare_tree_is))]
fn is_pointer_line(line: &Carried, tag: &str, number: u32) -> bool
    ensures { result ≡ same_tree line.now (shapes.pointer_line tag.now number []) }
{
    is_tagged(line, tag) && has_number(&line.value, number) && is_childless(line)
}

/// Whether the lines are those of the mentions.
fn are_mentions(lines: &[Carried], mentions: &[Mention]) -> bool
    ensures { result ≡ are lines.now (map shapes.mention_line mentions.now) }
{
    let mut lines = lines;
    let mut rest = mentions;
    'mentions: while let Some((mention, more)) = rest.split_first() {
        let Some((line, behind)) = lines.split_first() else {
            return false;
        };
        if !is_mention_line(line, mention) {
            return false;
        }
        lines = behind;
        rest = more;
    }
    is_end(lines)
}

#[tactic(auto, using(crate::proofs::Compared::tree_is))]
fn is_mention_line(line: &Carried, mention: &Mention) -> bool
    ensures { result ≡ same_tree line.now (shapes.mention_line mention.now) }
{
    is_tagged(line, "_MENT")
        && has_text(&line.value, mention.name.as_str())
        && are_below_mention(below(line), mention)
}

/// Whether the lines are those below the mention.
fn are_below_mention(lines: &[Carried], mention: &Mention) -> bool
    ensures { result ≡ are lines.now (below_mention mention.now) }
{
    match behind_text(lines, "_ROLE", mention.role.as_str()) {
        Some(rest) => are_link_lines(rest, &mention.link),
        None => false,
    }
}

/// Whether the lines are that of the link, where there is one.
fn are_link_lines(lines: &[Carried], link: &Option<Link>) -> bool
    ensures { result ≡ are lines.now (shapes.link_lines link.now) }
{
    match link {
        Some(link) => is_link_alone(lines, link),
        None => is_end(lines),
    }
}

fn is_link_alone(lines: &[Carried], link: &Link) -> bool
    ensures { result ≡ are lines.now (shapes.link_lines (Some link.now)) }
{
    match behind_link(lines, link) {
        Some(rest) => is_end(rest),
        None => false,
    }
}

/// What is after the line of a link. `None`: the first line is another one.
fn behind_link<'a>(lines: &'a [Carried], link: &Link) -> Option<&'a [Carried]>
    ensures { (ks : Lines) → MatchOption result
        (are lines.now (link_line link.now ∷ ks) ≡ false)
        (λ rest. are lines.now (link_line link.now ∷ ks) ≡ are rest.now ks) }
{
    let (line, rest) = lines.split_first()?;
    if is_link_line(line, link) {
        Some(rest)
    } else {
        None
    }
}

#[tactic(auto, using(crate::proofs::Compared::tree_is))]
fn is_link_line(line: &Carried, link: &Link) -> bool
    ensures { result ≡ same_tree line.now (link_line link.now) }
{
    is_tagged(line, "_LINK")
        && has_number(&line.value, link.person)
        && is_reason_alone(below(line), link.reason.as_str())
}

/// Whether there is one line, of that reason.
fn is_reason_alone(lines: &[Carried], reason: &str) -> bool
    ensures { result ≡ are lines.now (shapes.text_line (codes "_WHY") reason.now ∷ []) }
{
    match behind_text(lines, "_WHY", reason) {
        Some(rest) => is_end(rest),
        None => false,
    }
}
