//! What no row puts back of a value of before.

ghost use Rattle.std.specs.Prelude.{◌≡◌, ◌==◌, ◌&&◌, ◌||◌, ◌++◌, IfOk, OnOk, length, map, string_bytes};
ghost use Rattle.std.specs.List.{flat_map, list_any};
ghost use Rattle.showing.specs.Carried.{carried_text};
ghost use Rattle.histories.specs.Remarks as remarks;

use record_kinds::{Child, Event, Family, Name, Participant, Partner, Record};
use showing::carried_text;
use std::alloc::{AllocError, Global};

/// Appends a line for each thing that the rows do not put back: carried lines, the order of members, an empty name or
/// title, and that something was not there yet.
pub(crate) fn push_remarks(
    alloc: Global,
    out: &mut Vec<u8>,
    old: &Record,
    now: &Record,
) -> Result<(), AllocError>
    ensures { OnOk result (out.new.items ≡ out.old.items ++ remarks.remarks old.now now.now) }
{
    push_carried(alloc, out, old, now)?;
    push_order(alloc, out, old, now)?;
    push_lacking(out, old, now)?;
    push_later(alloc, out, old, now)
}

fn push_carried(
    alloc: Global,
    out: &mut Vec<u8>,
    old: &Record,
    now: &Record,
) -> Result<(), AllocError>
    ensures { OnOk result (out.new.items ≡ out.old.items ++ remarks.of_carried old.now now.now) }
{
    let lost = loses_carried(alloc, old, now)?;
    push_if(out, lost, "no row puts back carried lines\n")
}

fn push_order(
    alloc: Global,
    out: &mut Vec<u8>,
    old: &Record,
    now: &Record,
) -> Result<(), AllocError>
    ensures { OnOk result (out.new.items ≡ out.old.items ++ remarks.of_order old.now now.now) }
{
    let lost = loses_order(alloc, old, now)?;
    push_if(out, lost, "no row puts back the order of members\n")
}

fn push_lacking(out: &mut Vec<u8>, old: &Record, now: &Record) -> Result<(), AllocError>
    ensures { OnOk result (out.new.items ≡ out.old.items ++ remarks.of_lacking old.now now.now) }
{
    let lost = lacks_text(old, now);
    push_if(
        out,
        lost,
        "no row puts back that a name or title was empty\n",
    )
}

fn push_later(
    alloc: Global,
    out: &mut Vec<u8>,
    old: &Record,
    now: &Record,
) -> Result<(), AllocError>
    ensures { OnOk result (out.new.items ≡ out.old.items ++ remarks.of_later old.now now.now) }
{
    let later = has_later(alloc, old, now)?;
    push_if(out, later, "no row takes away what was added later\n")
}

fn push_if(out: &mut Vec<u8>, said: bool, line: &str) -> Result<(), AllocError>
    ensures { OnOk result (out.new.items ≡ out.old.items ++ remarks.line_if said line.now) }
{
    if said {
        out.extend_from_slice(line.as_bytes())
    } else {
        Ok(())
    }
}

fn loses_carried(alloc: Global, old: &Record, now: &Record) -> Result<bool, AllocError>
    ensures { IfOk result (λ b. b
        ≡ remarks.differ (carried_text old.now) (carried_text now.now)) }
{
    let before = carried_text(alloc, old)?;
    let after = carried_text(alloc, now)?;
    Ok(before.as_str() != after.as_str())
}

/// Whether members would come back in another order.
fn loses_order(alloc: Global, old: &Record, now: &Record) -> Result<bool, AllocError>
    ensures { IfOk result (λ b. b ≡ remarks.loses_order old.now now.now) }
{
    match (old, now) {
        (Record::Family(old), Record::Family(now)) => is_family_out_of_order(alloc, old, now),
        (Record::Event(old), Record::Event(now)) => is_event_out_of_order(alloc, old, now),
        _ => Ok(false),
    }
}

fn is_family_out_of_order(alloc: Global, old: &Family, now: &Family) -> Result<bool, AllocError>
    ensures { IfOk result (λ b. b ≡ remarks.family_loses_order old.now now.now) }
{
    let partners = are_partners_out_of_order(alloc, old, now)?;
    let children = are_children_out_of_order(alloc, old, now)?;
    Ok(either(partners, children))
}

fn either(first: bool, second: bool) -> bool
    ensures { result ≡ (first || second) }
{
    first || second
}

fn are_partners_out_of_order(alloc: Global, old: &Family, now: &Family) -> Result<bool, AllocError>
    ensures { IfOk result (λ b. b
        ≡ remarks.is_out_of_order (remarks.partners_of old.now) (remarks.partners_of now.now)) }
{
    let partners = partners_of(alloc, &old.partners)?;
    let partners_now = partners_of(alloc, &now.partners)?;
    is_out_of_order(alloc, &partners, &partners_now)
}

fn are_children_out_of_order(alloc: Global, old: &Family, now: &Family) -> Result<bool, AllocError>
    ensures { IfOk result (λ b. b
        ≡ remarks.is_out_of_order (remarks.children_of old.now) (remarks.children_of now.now)) }
{
    let children = children_of(alloc, &old.children)?;
    let children_now = children_of(alloc, &now.children)?;
    is_out_of_order(alloc, &children, &children_now)
}

fn is_event_out_of_order(alloc: Global, old: &Event, now: &Event) -> Result<bool, AllocError>
    ensures { IfOk result (λ b. b
        ≡ remarks.is_out_of_order (remarks.participants_of old.now) (remarks.participants_of now.now)) }
{
    let participants = participants_of(alloc, &old.participants)?;
    let participants_now = participants_of(alloc, &now.participants)?;
    is_out_of_order(alloc, &participants, &participants_now)
}

fn partners_of(alloc: Global, partners: &[Partner]) -> Result<Vec<u32>, AllocError>
    ensures { IfOk result (λ ns. ns.items ≡ map (λ p. p.person) partners.now) }
{
    let mut numbers = Vec::new(alloc);
    'each: for partner in partners {
        numbers.push(partner.person)?;
    }
    Ok(numbers)
}

fn children_of(alloc: Global, children: &[Child]) -> Result<Vec<u32>, AllocError>
    ensures { IfOk result (λ ns. ns.items ≡ map (λ c. c.person) children.now) }
{
    let mut numbers = Vec::new(alloc);
    'each: for child in children {
        numbers.push(child.person)?;
    }
    Ok(numbers)
}

fn participants_of(alloc: Global, participants: &[Participant]) -> Result<Vec<u32>, AllocError>
    ensures { IfOk result (λ ns. ns.items ≡ map (λ p. p.person) participants.now) }
{
    let mut numbers = Vec::new(alloc);
    'each: for participant in participants {
        numbers.push(participant.person)?;
    }
    Ok(numbers)
}

/// Whether members come back in another order, where those of now stay first and those that are missing are put last.
fn is_out_of_order(alloc: Global, old: &[u32], now: &[u32]) -> Result<bool, AllocError>
    ensures { IfOk result (λ b. b ≡ remarks.is_out_of_order old.now now.now) }
{
    let mut after = String::new(alloc);
    push_pieces(&mut after, true, now, old)?;
    push_pieces(&mut after, false, old, now)?;
    let mut before = String::new(alloc);
    push_all(&mut before, old)?;
    Ok(after.as_str() != before.as_str())
}

/// Appends the numbers that others have among them, or have not.
fn push_pieces(
    out: &mut String,
    wanted: bool,
    numbers: &[u32],
    others: &[u32],
) -> Result<(), AllocError>
    ensures { OnOk result (string_bytes out.new
        ≡ string_bytes out.old ++ flat_map (remarks.piece_if wanted others.now) numbers.now) }
{
    'each: for number in numbers {
        push_if_wanted(out, wanted, *number, others)?;
    }
    Ok(())
}

fn push_if_wanted(
    out: &mut String,
    wanted: bool,
    number: u32,
    others: &[u32],
) -> Result<(), AllocError>
    ensures { OnOk result (string_bytes out.new
        ≡ string_bytes out.old ++ remarks.piece_if wanted others.now number) }
{
    if is_among(number, others) == wanted {
        push_piece(out, number)
    } else {
        Ok(())
    }
}

fn is_among(number: u32, others: &[u32]) -> bool
    ensures { result ≡ remarks.is_among number others.now }
{
    others.iter().any(|it| *it == number)
}

fn push_all(out: &mut String, numbers: &[u32]) -> Result<(), AllocError>
    ensures { OnOk result (string_bytes out.new ≡ string_bytes out.old ++ flat_map remarks.piece numbers.now) }
{
    'each: for number in numbers {
        push_piece(out, *number)?;
    }
    Ok(())
}

fn push_piece(out: &mut String, number: u32) -> Result<(), AllocError>
    ensures { OnOk result (string_bytes out.new ≡ string_bytes out.old ++ remarks.piece number) }
{
    write!(out, "{number} ")
}

/// Whether a name or a member was added later, which stays.
fn has_later(alloc: Global, old: &Record, now: &Record) -> Result<bool, AllocError>
    ensures { IfOk result (λ b. b ≡ remarks.has_later old.now now.now) }
{
    match (old, now) {
        (Record::Person(old), Record::Person(now)) => Ok(now.names.get(old.names.len()).is_some()),
        (Record::Family(old), Record::Family(now)) => family_has_later(alloc, old, now),
        (Record::Event(old), Record::Event(now)) => event_has_later(alloc, old, now),
        _ => Ok(false),
    }
}

fn family_has_later(alloc: Global, old: &Family, now: &Family) -> Result<bool, AllocError>
    ensures { IfOk result (λ b. b ≡ remarks.family_has_later old.now now.now) }
{
    let partners = have_more_partners(alloc, old, now)?;
    let children = have_more_children(alloc, old, now)?;
    Ok(either(partners, children))
}

fn have_more_partners(alloc: Global, old: &Family, now: &Family) -> Result<bool, AllocError>
    ensures { IfOk result (λ b. b
        ≡ remarks.has_more (remarks.partners_of old.now) (remarks.partners_of now.now)) }
{
    let partners = partners_of(alloc, &old.partners)?;
    let partners_now = partners_of(alloc, &now.partners)?;
    Ok(has_more(&partners, &partners_now))
}

fn have_more_children(alloc: Global, old: &Family, now: &Family) -> Result<bool, AllocError>
    ensures { IfOk result (λ b. b
        ≡ remarks.has_more (remarks.children_of old.now) (remarks.children_of now.now)) }
{
    let children = children_of(alloc, &old.children)?;
    let children_now = children_of(alloc, &now.children)?;
    Ok(has_more(&children, &children_now))
}

fn event_has_later(alloc: Global, old: &Event, now: &Event) -> Result<bool, AllocError>
    ensures { IfOk result (λ b. b
        ≡ remarks.has_more (remarks.participants_of old.now) (remarks.participants_of now.now)) }
{
    let participants = participants_of(alloc, &old.participants)?;
    let participants_now = participants_of(alloc, &now.participants)?;
    Ok(has_more(&participants, &participants_now))
}

fn has_more(old: &[u32], now: &[u32]) -> bool
    ensures { result ≡ remarks.has_more old.now now.now }
{
    now.iter().any(|it| !is_among(*it, old))
}

/// Whether a name or a title was empty or missing, and is so no longer.
fn lacks_text(old: &Record, now: &Record) -> bool
    ensures { result ≡ remarks.lacks_text old.now now.now }
{
    match (old, now) {
        (Record::Person(old), Record::Person(now)) => {
            has_empty_name(&old.names) && !has_empty_name(&now.names)
        }
        (Record::Repo(old), Record::Repo(now)) => old.name.is_none() && now.name.is_some(),
        (Record::Source(old), Record::Source(now)) => old.title.is_none() && now.title.is_some(),
        _ => false,
    }
}

fn has_empty_name(names: &[Name]) -> bool
    ensures { result ≡ list_any (λ x. length x.text == 0) names.now }
{
    names.iter().any(|name| name.text.as_str().is_empty())
}
