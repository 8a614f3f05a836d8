//! What a record keeps by itself.

ghost use Rattle.std.specs.Prelude.{◌↔◌, IfOk, IsTrue, MatchOption};
ghost use Rattle.archive_state.specs.Sound.{IsNumber};
ghost use Rattle.sound_records.specs.Parts.{BreaksAlone, KeepsAlone};

use crate::part::Part;
use record_kinds::Record;
use record_rules::{
    has_members_once, has_normal_name, has_smaller_parent, has_sound_mentions, has_tags, has_texts,
    is_no_trailer,
};
use std::alloc::{AllocError, Global};

/// The first part that the record of a number breaks by itself.
pub(crate) fn broken_alone(
    alloc: Global,
    next: u64,
    number: u32,
    record: &Record,
) -> Result<Option<Part>, AllocError>
    ensures { IfOk result (λ o. MatchOption o (KeepsAlone next number «record».now)
        (BreaksAlone next number «record».now)) }
{
    if !is_number(next, number) {
        return Ok(Some(Part::Number));
    }
    if !has_smaller_parent(number, record) {
        return Ok(Some(Part::Parent));
    }
    if !has_normal_name(alloc, record)? {
        return Ok(Some(Part::Name));
    }
    if !has_members_once(alloc, record)? {
        return Ok(Some(Part::Members));
    }
    if !has_tags(record) {
        return Ok(Some(Part::Tags));
    }
    if !is_no_trailer(record) {
        return Ok(Some(Part::Trailer));
    }
    if !has_texts(record) {
        return Ok(Some(Part::Texts));
    }
    if !has_sound_mentions(record) {
        return Ok(Some(Part::Mentions));
    }
    Ok(None)
}

fn is_number(next: u64, number: u32) -> bool
    ensures { IsTrue result ↔ IsNumber next number }
{
    0 < number && u64::from(number) < next
}
