//! Places, repositories, sources, citations and records of no other kind with numbers for positions.

ghost use Rattle.archive_state.specs.Merging as merging;
ghost use Rattle.import_numbers.specs.Parts.{repo_with};

use crate::lines::{renumber_lines, renumber_value};
use crate::renumbering::{Renumber, maybe_number, number_of, renumber_all};
use record_kinds::{Citation, Holding, Other, Place, Repo, Source};
use std::alloc::{AllocError, Global};

impl Renumber for Place {
    ghost with = { merging.place_with };

    fn renumber(&mut self, alloc: Global, numbers: &[u32]) -> Result<(), AllocError> {
        self.parent = maybe_number(numbers, self.parent);
        renumber_lines(alloc, &mut self.carried, numbers)?;
        Ok(())
    }
}

impl Renumber for Repo {
    ghost with = { repo_with };

    fn renumber(&mut self, alloc: Global, numbers: &[u32]) -> Result<(), AllocError> {
        renumber_lines(alloc, &mut self.carried, numbers)?;
        Ok(())
    }
}

impl Renumber for Holding {
    ghost with = { merging.holding_with };

    fn renumber(&mut self, alloc: Global, numbers: &[u32]) -> Result<(), AllocError> {
        self.repo = number_of(numbers, self.repo);
        renumber_lines(alloc, &mut self.carried, numbers)?;
        Ok(())
    }
}

impl Renumber for Source {
    ghost with = { merging.source_with };

    fn renumber(&mut self, alloc: Global, numbers: &[u32]) -> Result<(), AllocError> {
        renumber_all(alloc, &mut self.holdings, numbers)?;
        renumber_lines(alloc, &mut self.carried, numbers)?;
        Ok(())
    }
}

impl Renumber for Citation {
    ghost with = { merging.citation_with };

    fn renumber(&mut self, alloc: Global, numbers: &[u32]) -> Result<(), AllocError> {
        self.owner = number_of(numbers, self.owner);
        self.source = number_of(numbers, self.source);
        renumber_lines(alloc, &mut self.carried, numbers)?;
        Ok(())
    }
}

impl Renumber for Other {
    ghost with = { merging.other_with };

    fn renumber(&mut self, alloc: Global, numbers: &[u32]) -> Result<(), AllocError> {
        renumber_value(&mut self.value, numbers);
        renumber_lines(alloc, &mut self.carried, numbers)?;
        Ok(())
    }
}
