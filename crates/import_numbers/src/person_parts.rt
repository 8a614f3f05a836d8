//! Persons and families with numbers for positions.

ghost use Rattle.archive_state.specs.Merging as merging;

use crate::lines::renumber_lines;
use crate::renumbering::{Renumber, number_of, renumber_all};
use record_kinds::{Child, Family, Name, Partner, Person};
use std::alloc::{AllocError, Global};

impl Renumber for Name {
    ghost with = { merging.name_with };

    fn renumber(&mut self, alloc: Global, numbers: &[u32]) -> Result<(), AllocError> {
        renumber_lines(alloc, &mut self.carried, numbers)?;
        Ok(())
    }
}

impl Renumber for Person {
    ghost with = { merging.person_with };

    fn renumber(&mut self, alloc: Global, numbers: &[u32]) -> Result<(), AllocError> {
        renumber_all(alloc, &mut self.names, numbers)?;
        renumber_lines(alloc, &mut self.carried, numbers)?;
        Ok(())
    }
}

impl Renumber for Partner {
    ghost with = { merging.partner_with };

    fn renumber(&mut self, alloc: Global, numbers: &[u32]) -> Result<(), AllocError> {
        self.person = number_of(numbers, self.person);
        renumber_lines(alloc, &mut self.carried, numbers)?;
        renumber_lines(alloc, &mut self.carried_by_person, numbers)?;
        Ok(())
    }
}

impl Renumber for Child {
    ghost with = { merging.child_with };

    fn renumber(&mut self, alloc: Global, numbers: &[u32]) -> Result<(), AllocError> {
        self.person = number_of(numbers, self.person);
        renumber_lines(alloc, &mut self.carried, numbers)?;
        renumber_lines(alloc, &mut self.carried_by_person, numbers)?;
        Ok(())
    }
}

impl Renumber for Family {
    ghost with = { merging.family_with };

    fn renumber(&mut self, alloc: Global, numbers: &[u32]) -> Result<(), AllocError> {
        renumber_all(alloc, &mut self.partners, numbers)?;
        renumber_all(alloc, &mut self.children, numbers)?;
        renumber_lines(alloc, &mut self.carried, numbers)?;
        Ok(())
    }
}
