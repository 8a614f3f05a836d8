//! What a record tells of who is dead.

ghost use Rattle.std.specs.Prelude.{◌≡◌};
ghost use Rattle.masking.specs.Life.{ends_a_life};
ghost use Rattle.masking.specs.Evidence.{IsDeath, IsOldEvent, IsOldFamily};

use crate::dates::has_ended_if_there;
use crate::sets::{add_buried, add_if, add_partners_of};
use crate::telling::Tells;
use record_kinds::Record;
use record_text::Tag;
use std::alloc::{AllocError, Global};
use std::collections::BTreeSet;

/// Who owns a death, a burial or a cremation, or is linked as the one who is buried.
#[derive(Clone, Copy)]
pub(crate) struct Deaths;

impl Tells for Deaths {
    ghost tells = { λ d. IsDeath };

    fn add_told(
        &self,
        _alloc: Global,
        _number: u32,
        found: &Record,
        numbers: &mut BTreeSet<u32>,
    ) -> Result<(), AllocError> {
        match found {
            Record::Event(event) => add_if(ends_a_life(&event.tag), event.owner, numbers),
            Record::Entry(entry) => add_buried(&entry.mentions, numbers),
            _ => Ok(()),
        }
    }
}

/// Whether an event of this tag ends a life.
fn ends_a_life(tag: &Tag) -> bool
    ensures { result ≡ ends_a_life tag.now }
{
    let tag = tag.as_str();
    tag == "DEAT" || tag == "BURI" || tag == "CREM"
}

/// Who owns an event that ended by the day: persons and families.
#[derive(Clone, Copy)]
pub(crate) struct OldEvents {
    pub day: i64,
}

impl Tells for OldEvents {
    ghost tells = { λ o. IsOldEvent o.day };

    fn add_told(
        &self,
        alloc: Global,
        _number: u32,
        found: &Record,
        numbers: &mut BTreeSet<u32>,
    ) -> Result<(), AllocError> {
        match found {
            Record::Event(event) => {
                let ended = has_ended_if_there(alloc, &event.date, self.day)?;
                add_if(ended, event.owner, numbers)
            }
            _ => Ok(()),
        }
    }
}

/// Who is a partner in one of these families.
#[derive(Clone, Copy)]
pub(crate) struct OldFamilies<'a> {
    pub old: &'a BTreeSet<u32>,
}

impl<'a> Tells for OldFamilies<'a> {
    ghost tells = { λ o. IsOldFamily o.old.now };

    fn add_told(
        &self,
        _alloc: Global,
        number: u32,
        found: &Record,
        numbers: &mut BTreeSet<u32>,
    ) -> Result<(), AllocError> {
        match found {
            Record::Family(family) => {
                if self.old.contains(&number) {
                    add_partners_of(family, numbers)
                } else {
                    Ok(())
                }
            }
            _ => Ok(()),
        }
    }
}
