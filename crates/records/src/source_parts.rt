//! Places, repositories, sources and citations as branches.

ghost use Rattle.std.specs.Prelude.{[], ◌≡◌, IfOk, Some, option_map};
ghost use Rattle.stored_lines.specs.Levels.{AreShallow};
ghost use Rattle.records.specs.Shallow.{InHolding, InSource};
ghost use Rattle.records.specs.Stored.{
  branch,
  place_tree,
  repo_tree,
  holding_tree,
  source_fields,
  source_tree,
  citation_tree,
};
ghost use Rattle.record_fields.specs.Words.{quality_word, quality_of};
ghost use Rattle.records.specs.Reading.{
  shallow_lines,
  place_from,
  repo_from,
  holding_from,
  source_from,
  citation_from,
  read_by,
};
ghost use Rattle.records.specs.declared.field.Field.TheVariants as field;

use crate::field::Field;
use crate::part::{Part, parts_at, push_parts};
use crate::reading::{children_of, lines_at, number_at, number_or_zero, text_at, text_or_none};
use crate::writing::{push_lines, push_text};
use record_fields::Quality;
use record_kinds::{Citation, Holding, Place, Repo, Source};
use record_text::Text;
use std::alloc::{AllocError, Global};
use stored_lines::{Branch, copied};

impl Part for Place {
    ghost kept_as = { place_tree };

    ghost read_of = { place_from shallow_lines };

    ghost is_shallow = { λ p. AreShallow p.carried };

    fn write(&self, alloc: Global) -> Result<Branch, AllocError> {
        let mut below = Vec::new(alloc);
        push_lines(alloc, &mut below, Field::Carried, &self.carried)?;
        let text = Some(self.name.copy(alloc)?);
        Field::Place.branch(alloc, text, self.parent, below)
    }

    fn read(alloc: Global, branch: &Branch) -> Result<Place, AllocError> {
        let parts = children_of(branch);
        Ok(Place {
            name: text_or_none(alloc, &branch.text)?,
            parent: branch.target,
            carried: lines_at(alloc, parts, Field::Carried)?,
        })
    }
}

impl Part for Repo {
    ghost kept_as = { repo_tree };

    ghost read_of = { repo_from shallow_lines };

    ghost is_shallow = { λ r. AreShallow r.carried };

    fn write(&self, alloc: Global) -> Result<Branch, AllocError> {
        let mut below = Vec::new(alloc);
        push_lines(alloc, &mut below, Field::Carried, &self.carried)?;
        let text = copied(alloc, &self.name)?;
        Field::Repo.branch(alloc, text, None, below)
    }

    fn read(alloc: Global, branch: &Branch) -> Result<Repo, AllocError> {
        let parts = children_of(branch);
        Ok(Repo {
            name: copied(alloc, &branch.text)?,
            carried: lines_at(alloc, parts, Field::Carried)?,
        })
    }
}

impl Part for Holding {
    ghost kept_as = { holding_tree };

    ghost read_of = { holding_from shallow_lines };

    ghost is_shallow = { InHolding AreShallow };

    fn write(&self, alloc: Global) -> Result<Branch, AllocError> {
        let mut below = Vec::new(alloc);
        push_lines(alloc, &mut below, Field::Carried, &self.carried)?;
        let text = copied(alloc, &self.call_number)?;
        Field::Holding.branch(alloc, text, Some(self.repo), below)
    }

    fn read(alloc: Global, branch: &Branch) -> Result<Holding, AllocError> {
        let parts = children_of(branch);
        Ok(Holding {
            repo: number_or_zero(branch.target),
            call_number: copied(alloc, &branch.text)?,
            carried: lines_at(alloc, parts, Field::Carried)?,
        })
    }
}

impl Part for Source {
    ghost kept_as = { source_tree };

    ghost read_of = { source_from shallow_lines };

    ghost is_shallow = { InSource AreShallow };

    fn write(&self, alloc: Global) -> Result<Branch, AllocError> {
        let below = fields_of_source(alloc, self)?;
        let text = copied(alloc, &self.title)?;
        Field::Source.branch(alloc, text, None, below)
    }

    fn read(alloc: Global, branch: &Branch) -> Result<Source, AllocError> {
        let parts = children_of(branch);
        Ok(Source {
            title: copied(alloc, &branch.text)?,
            author: text_at(alloc, parts, Field::Author)?,
            publisher: text_at(alloc, parts, Field::Publisher)?,
            holdings: parts_at(alloc, parts, Field::Holding)?,
            carried: lines_at(alloc, parts, Field::Carried)?,
        })
    }
}

impl Part for Citation {
    ghost kept_as = { citation_tree };

    ghost read_of = { citation_from shallow_lines };

    ghost is_shallow = { λ c. AreShallow c.carried };

    fn write(&self, alloc: Global) -> Result<Branch, AllocError> {
        let mut below = Vec::new(alloc);
        below.push(cited_source(alloc, self)?)?;
        push_text(
            alloc,
            &mut below,
            Field::Quality,
            quality_text(alloc, self.quality)?,
        )?;
        push_lines(alloc, &mut below, Field::Carried, &self.carried)?;
        Field::Citation.branch(alloc, None, Some(self.owner), below)
    }

    fn read(alloc: Global, branch: &Branch) -> Result<Citation, AllocError> {
        let parts = children_of(branch);
        Ok(Citation {
            owner: number_or_zero(branch.target),
            source: number_at(parts, Field::Source),
            page: text_at(alloc, parts, Field::Source)?,
            quality: quality_in(&text_at(alloc, parts, Field::Quality)?),
            carried: lines_at(alloc, parts, Field::Carried)?,
        })
    }
}

/// The lines below that of a source.
fn fields_of_source(alloc: Global, source: &Source) -> Result<Vec<Branch>, AllocError>
    ensures kept { IfOk result (λ below. below.items ≡ source_fields source.now) }
    ensures shallow { IfOk result (λ _. InSource AreShallow source.now) }
{
    let mut below = Vec::new(alloc);
    push_text(
        alloc,
        &mut below,
        Field::Author,
        copied(alloc, &source.author)?,
    )?;
    push_text(
        alloc,
        &mut below,
        Field::Publisher,
        copied(alloc, &source.publisher)?,
    )?;
    push_parts(alloc, &mut below, &source.holdings)?;
    push_lines(alloc, &mut below, Field::Carried, &source.carried)?;
    Ok(below)
}

/// The line of the source that is cited, with the page.
fn cited_source(alloc: Global, citation: &Citation) -> Result<Branch, AllocError>
    ensures { IfOk result (λ b. b ≡ branch field.Source citation.now.page (Some citation.now.source) []) }
{
    let page = copied(alloc, &citation.page)?;
    Field::Source.branch(alloc, page, Some(citation.source), Vec::new(alloc))
}

/// The word of a quality as a text, where there is one.
#[tactic(auto, using(record_fields::proofs::Worded::quality_is_plain))]
fn quality_text(alloc: Global, quality: Option<Quality>) -> Result<Option<Text>, AllocError>
    ensures { IfOk result (λ t. t ≡ option_map quality_word quality) }
{
    match quality {
        None => Ok(None),
        Some(quality) => Ok(Some(Text::of_words(alloc, quality.as_str())?)),
    }
}

/// The quality of a text, where there is one.
fn quality_in(text: &Option<Text>) -> Option<Quality>
    ensures { result ≡ read_by quality_of text.now }
{
    match text {
        None => None,
        Some(text) => Quality::from_word(text.as_str()),
    }
}
