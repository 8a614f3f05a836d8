//! What a record tells of who is living, and what may be shown.

ghost use Rattle.std.specs.Prelude.{◌≡◌, ◌↔◌, IsTrue, Some, pos};
ghost use Rattle.std.specs.List.{list_any};
ghost use Rattle.std.specs.Ordering.{nat_cmp};
ghost use Rattle.std.specs.BTreeSet as set;
ghost use Rattle.record_kinds.specs.Model as model;
ghost use Rattle.record_shapes.specs.Lists.{EachOf};
ghost use Rattle.masking.specs.Closing.{days_closed};
ghost use Rattle.masking.specs.Masking as masking;
ghost use Rattle.masking.specs.Evidence.{IsOfNone, IsOpenEntry, IsPersonBut, IsSilent};

use crate::dates::has_ended_if_there;
use crate::sets::add_if;
use crate::telling::Tells;
use record_fields::EntryKind;
use record_kinds::{Mention, Partner, Record};
use std::alloc::{AllocError, Global};
use std::collections::BTreeSet;

/// The persons who are in none of these sets.
#[derive(Clone, Copy)]
pub(crate) struct PersonsBut<'a> {
    pub dead: &'a BTreeSet<u32>,
    pub old: &'a BTreeSet<u32>,
    pub partners: &'a BTreeSet<u32>,
}

impl<'a> Tells for PersonsBut<'a> {
    ghost tells = { λ p. IsPersonBut p.dead.now p.old.now p.partners.now };

    fn add_told(
        &self,
        _alloc: Global,
        number: u32,
        found: &Record,
        numbers: &mut BTreeSet<u32>,
    ) -> Result<(), AllocError> {
        match found {
            Record::Person(_) => {
                let is_dead = self.dead.contains(&number)
                    || self.old.contains(&number)
                    || self.partners.contains(&number);
                add_if(!is_dead, number, numbers)
            }
            _ => Ok(()),
        }
    }
}

/// The living persons, and the families with a living partner.
#[derive(Clone, Copy)]
pub(crate) struct Silent<'a> {
    pub living: &'a BTreeSet<u32>,
}

impl<'a> Tells for Silent<'a> {
    ghost tells = { λ s. IsSilent s.living.now };

    fn add_told(
        &self,
        _alloc: Global,
        number: u32,
        found: &Record,
        numbers: &mut BTreeSet<u32>,
    ) -> Result<(), AllocError> {
        add_if(is_silent(self.living, number, found), number, numbers)
    }
}

/// Whether the record is a living person, or a family with a living partner.
fn is_silent(living: &BTreeSet<u32>, number: u32, found: &Record) -> bool
    ensures { result ≡ masking.is_silent (set.contains nat_cmp living.now) number (Some found.now) }
{
    match found {
        Record::Person(_) => living.contains(&number),
        Record::Family(family) => has_living(living, &family.partners),
        _ => false,
    }
}

/// Whether a partner is living.
fn has_living(living: &BTreeSet<u32>, partners: &[Partner]) -> bool
    ensures { result ≡ list_any (λ (p : model.Partner). set.contains nat_cmp living.now p.person) partners.now }
{
    partners.iter().any(|p| living.contains(&p.person))
}

/// The entries that are open.
#[derive(Clone, Copy)]
pub(crate) struct OpenEntries<'a> {
    pub today: i32,
    pub living: &'a BTreeSet<u32>,
}

impl<'a> Tells for OpenEntries<'a> {
    ghost tells = { λ o. IsOpenEntry o.today o.living.now };

    fn add_told(
        &self,
        alloc: Global,
        number: u32,
        found: &Record,
        numbers: &mut BTreeSet<u32>,
    ) -> Result<(), AllocError> {
        match found {
            Record::Entry(entry) => {
                let day = i64::from(self.today) - days_closed(entry.kind);
                let ended = has_ended_if_there(alloc, &entry.date, day)?;
                add_if(
                    ended && is_of_none(self.living, &entry.mentions),
                    number,
                    numbers,
                )
            }
            _ => Ok(()),
        }
    }
}

/// How many days an entry of this kind is closed.
fn days_closed(kind: EntryKind) -> i64
    ensures { result ≡ pos (days_closed kind) }
{
    match kind {
        EntryKind::Baptism => 36_525,
        EntryKind::Marriage => 27_394,
        EntryKind::Burial => 10_958,
    }
}

/// Whether no mention is linked to a living person.
fn is_of_none(living: &BTreeSet<u32>, mentions: &[Mention]) -> bool
    ensures { IsTrue result ↔ EachOf (IsOfNone living.now) mentions.now }
{
    mentions.iter().all(|x| !is_of_living(living, x))
}

/// Whether the mention is linked to a living person.
fn is_of_living(living: &BTreeSet<u32>, mention: &Mention) -> bool
    ensures { IsTrue result ↔ ¬ (IsOfNone living.now mention.now) }
{
    match &mention.link {
        None => false,
        Some(link) => living.contains(&link.person),
    }
}
