//! Repositories, sources and citations.

ghost use Rattle.std.specs.Prelude.{◌≡◌, ◌∷◌, IfOk};
ghost use Rattle.stored_lines.specs.Line.{Lines};
ghost use Rattle.record_shapes.specs.Forms.{Known as KnownOf};
ghost use Rattle.record_shapes.specs.Fields as fields;
ghost use Rattle.record_shapes.specs.Reading as reading;
ghost use Rattle.node_reading.specs.Partly as partly;

use crate::fields::{is_first, is_same};
use field_rows::{
    Known, citation_field, holding_field, into_below, into_text, number_of, quality_of, repo_field,
    source_field,
};
use record_kinds::{Citation, Holding, Repo, Source};
use record_shapes::Field;
use std::alloc::{AllocError, Global};
use stored_lines::Carried;

/// The repository of its lines.
pub fn repo_of(alloc: Global, lines: Vec<Carried>) -> Result<Repo, AllocError>
    ensures { IfOk result (λ r. r ≡ reading.repo_from lines.items) }
{
    let mut repo = Repo {
        name: None,
        carried: Vec::new(alloc),
    };
    'lines: for line in lines {
        take_repo_line(alloc, &mut repo, line)?;
    }
    Ok(repo)
}

fn take_repo_line(alloc: Global, repo: &mut Repo, line: Carried) -> Result<(), AllocError>
    ensures { IfOk result (λ _. (ts : Lines) → partly.repo_with repo.new ts ≡ partly.repo_with repo.old (line ∷ ts)) }
{
    if is_first(repo_field(&line), Field::Name, &repo.name) {
        repo.name = Some(into_text(alloc, line));
        return Ok(());
    }
    repo.carried.push(line)?;
    Ok(())
}

/// The repository that keeps a source, of the line that names it.
fn holding_of(alloc: Global, line: Carried) -> Result<Holding, AllocError>
    ensures { IfOk result (λ h. h ≡ reading.holding_from line) }
{
    let mut holding = Holding {
        repo: number_of(&line),
        call_number: None,
        carried: Vec::new(alloc),
    };
    'lines: for below in into_below(line) {
        take_holding_line(alloc, &mut holding, below)?;
    }
    Ok(holding)
}

fn take_holding_line(alloc: Global, holding: &mut Holding, line: Carried) -> Result<(), AllocError>
    ensures { IfOk result
        (λ _. (ts : Lines) → partly.holding_with holding.new ts ≡ partly.holding_with holding.old (line ∷ ts)) }
{
    if is_first(
        holding_field(&line),
        Field::CallNumber,
        &holding.call_number,
    ) {
        holding.call_number = Some(into_text(alloc, line));
        return Ok(());
    }
    holding.carried.push(line)?;
    Ok(())
}

/// The source of its lines.
pub fn source_of<K: Known>(
    alloc: Global,
    known: &K,
    lines: Vec<Carried>,
) -> Result<Source, AllocError>
    ensures { IfOk result (λ s. s ≡ reading.source_from (K.known known.now) lines.items) }
{
    let mut source = Source {
        title: None,
        author: None,
        publisher: None,
        holdings: Vec::new(alloc),
        carried: Vec::new(alloc),
    };
    'lines: for line in lines {
        let field = source_field(known, &line);
        take_source_line(alloc, &mut source, field, line)?;
    }
    Ok(source)
}

fn take_source_line(
    alloc: Global,
    source: &mut Source,
    field: Field,
    line: Carried,
) -> Result<(), AllocError>
    ensures { IfOk result (λ _. (known : KnownOf) (ts : Lines) → field ≡ fields.source_field known line
        → partly.source_with known source.new ts ≡ partly.source_with known source.old (line ∷ ts)) }
{
    if is_first(field, Field::Title, &source.title) {
        source.title = Some(into_text(alloc, line));
        return Ok(());
    }
    if is_first(field, Field::Author, &source.author) {
        source.author = Some(into_text(alloc, line));
        return Ok(());
    }
    if is_first(field, Field::Publisher, &source.publisher) {
        source.publisher = Some(into_text(alloc, line));
        return Ok(());
    }
    if is_same(field, Field::Holding) {
        source.holdings.push(holding_of(alloc, line)?)?;
        return Ok(());
    }
    source.carried.push(line)?;
    Ok(())
}

/// The citation of the line that names a source. Its owner is for the caller.
pub fn citation_of(alloc: Global, line: Carried) -> Result<Citation, AllocError>
    ensures { IfOk result (λ c. c ≡ reading.citation_from line) }
{
    let mut citation = Citation {
        owner: 0,
        source: number_of(&line),
        page: None,
        quality: None,
        carried: Vec::new(alloc),
    };
    'lines: for below in into_below(line) {
        take_citation_line(alloc, &mut citation, below)?;
    }
    Ok(citation)
}

fn take_citation_line(
    alloc: Global,
    citation: &mut Citation,
    line: Carried,
) -> Result<(), AllocError>
    ensures { IfOk result
        (λ _. (ts : Lines) → partly.citation_with citation.new ts ≡ partly.citation_with citation.old (line ∷ ts)) }
{
    let field = citation_field(&line);
    if is_first(field, Field::Page, &citation.page) {
        citation.page = Some(into_text(alloc, line));
        return Ok(());
    }
    if is_first(field, Field::Quality, &citation.quality) {
        citation.quality = quality_of(&line);
        return Ok(());
    }
    citation.carried.push(line)?;
    Ok(())
}
