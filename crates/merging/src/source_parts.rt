//! Places, repositories, sources, citations and records of no other kind with their numbers changed.

ghost use Rattle.archive_state.specs.Merging as merging;
ghost use Rattle.merging.specs.Parts.{repo_with};

use crate::redirecting::{Renamed, lines_with, maybe_number, number_with, renamed_all, value_with};
use record_kinds::{Citation, Holding, Other, Place, Repo, Source};
use std::alloc::{AllocError, Global};
use stored_lines::copied;

impl Renamed for Place {
    ghost with = { merging.place_with };

    fn renamed(&self, alloc: Global, keep: u32, gone: u32) -> Result<Place, AllocError> {
        Ok(Place {
            name: self.name.copy(alloc)?,
            parent: maybe_number(self.parent, keep, gone),
            carried: lines_with(alloc, &self.carried, keep, gone)?,
        })
    }
}

impl Renamed for Repo {
    ghost with = { repo_with };

    fn renamed(&self, alloc: Global, keep: u32, gone: u32) -> Result<Repo, AllocError> {
        Ok(Repo {
            name: copied(alloc, &self.name)?,
            carried: lines_with(alloc, &self.carried, keep, gone)?,
        })
    }
}

impl Renamed for Holding {
    ghost with = { merging.holding_with };

    fn renamed(&self, alloc: Global, keep: u32, gone: u32) -> Result<Holding, AllocError> {
        Ok(Holding {
            repo: number_with(self.repo, keep, gone),
            call_number: copied(alloc, &self.call_number)?,
            carried: lines_with(alloc, &self.carried, keep, gone)?,
        })
    }
}

impl Renamed for Source {
    ghost with = { merging.source_with };

    fn renamed(&self, alloc: Global, keep: u32, gone: u32) -> Result<Source, AllocError> {
        Ok(Source {
            title: copied(alloc, &self.title)?,
            author: copied(alloc, &self.author)?,
            publisher: copied(alloc, &self.publisher)?,
            holdings: renamed_all(alloc, &self.holdings, keep, gone)?,
            carried: lines_with(alloc, &self.carried, keep, gone)?,
        })
    }
}

impl Renamed for Citation {
    ghost with = { merging.citation_with };

    fn renamed(&self, alloc: Global, keep: u32, gone: u32) -> Result<Citation, AllocError> {
        Ok(Citation {
            owner: number_with(self.owner, keep, gone),
            source: number_with(self.source, keep, gone),
            page: copied(alloc, &self.page)?,
            quality: self.quality,
            carried: lines_with(alloc, &self.carried, keep, gone)?,
        })
    }
}

impl Renamed for Other {
    ghost with = { merging.other_with };

    fn renamed(&self, alloc: Global, keep: u32, gone: u32) -> Result<Other, AllocError> {
        Ok(Other {
            tag: self.tag.copy(alloc)?,
            value: value_with(alloc, &self.value, keep, gone)?,
            carried: lines_with(alloc, &self.carried, keep, gone)?,
        })
    }
}
