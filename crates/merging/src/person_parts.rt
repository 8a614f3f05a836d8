//! Persons and families with their numbers changed.

ghost use Rattle.archive_state.specs.Merging as merging;

use crate::redirecting::{Renamed, lines_with, number_with, renamed_all};
use record_kinds::{Child, Family, Name, Partner, Person};
use std::alloc::{AllocError, Global};

impl Renamed for Name {
    ghost with = { merging.name_with };

    fn renamed(&self, alloc: Global, keep: u32, gone: u32) -> Result<Name, AllocError> {
        Ok(Name {
            text: self.text.copy(alloc)?,
            carried: lines_with(alloc, &self.carried, keep, gone)?,
        })
    }
}

impl Renamed for Person {
    ghost with = { merging.person_with };

    fn renamed(&self, alloc: Global, keep: u32, gone: u32) -> Result<Person, AllocError> {
        Ok(Person {
            names: renamed_all(alloc, &self.names, keep, gone)?,
            sex: self.sex,
            carried: lines_with(alloc, &self.carried, keep, gone)?,
        })
    }
}

impl Renamed for Partner {
    ghost with = { merging.partner_with };

    fn renamed(&self, alloc: Global, keep: u32, gone: u32) -> Result<Partner, AllocError> {
        Ok(Partner {
            partnership: self.partnership,
            person: number_with(self.person, keep, gone),
            carried: lines_with(alloc, &self.carried, keep, gone)?,
            carried_by_person: lines_with(alloc, &self.carried_by_person, keep, gone)?,
        })
    }
}

impl Renamed for Child {
    ghost with = { merging.child_with };

    fn renamed(&self, alloc: Global, keep: u32, gone: u32) -> Result<Child, AllocError> {
        Ok(Child {
            person: number_with(self.person, keep, gone),
            carried: lines_with(alloc, &self.carried, keep, gone)?,
            carried_by_person: lines_with(alloc, &self.carried_by_person, keep, gone)?,
        })
    }
}

impl Renamed for Family {
    ghost with = { merging.family_with };

    fn renamed(&self, alloc: Global, keep: u32, gone: u32) -> Result<Family, AllocError> {
        Ok(Family {
            partners: renamed_all(alloc, &self.partners, keep, gone)?,
            children: renamed_all(alloc, &self.children, keep, gone)?,
            carried: lines_with(alloc, &self.carried, keep, gone)?,
        })
    }
}
