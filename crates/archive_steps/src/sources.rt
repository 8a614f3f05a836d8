//! The commands on repositories, sources and citations.

ghost use Rattle.std.specs.Prelude.{◌≡◌, IfOk, IfErr, false};
ghost use Rattle.archive_state.specs.Looks.{Agrees, CountsFailures, is_failure, is_stop};
ghost use Rattle.archive_state.specs.Views.{On};
ghost use Rattle.command_checks.specs.Applied.{Plans};
ghost use Rattle.command_checks.specs.Exact.{IsExact};
ghost use Rattle.archive_steps.specs.Steps as steps;

use crate::making::{creates, kept_if};
use archive_state::{Changes, View};
use command_checks::{Demand, check_demand, check_optional, maybe_text_in, text_in};
use commands::Field;
use record_fields::Quality;
use record_kinds::{Citation, Holding, Record, Repo, Source};
use record_text::{RefusalKind, Text};
use std::alloc::{AllocError, Global};

/// A new repository.
pub(crate) fn new_repo<V: View>(
    alloc: Global,
    view: &mut V,
    name: &Field,
) -> Result<Changes, RefusalKind>
    ensures decides { On V.View view.old view.new (λ c. Plans c result (steps.new_repo c name.now)) }
    ensures exact { On V.View view.old view.new (λ c. IfOk result (IsExact c)) }
    ensures counts { CountsFailures (V.failed view.old) (V.failed view.new) result }
{
    let name = text_in(alloc, name)?;
    creates(alloc, view, Record::Repo(plain_repo(alloc, name)))
}

/// A new source.
pub(crate) fn new_source<V: View>(
    alloc: Global,
    view: &mut V,
    title: &Field,
    author: &Field,
    publisher: &Field,
    repo: Option<u32>,
    call_number: &Field,
) -> Result<Changes, RefusalKind>
    ensures decides { On V.View view.old view.new
        (λ c. Plans c result (steps.new_source c title.now author.now publisher.now repo call_number.now)) }
    ensures exact { On V.View view.old view.new (λ c. IfOk result (IsExact c)) }
    ensures counts { CountsFailures (V.failed view.old) (V.failed view.new) result }
{
    let source = given_source(alloc, title, author, publisher, repo, call_number)?;
    let source = kept_if(source, check_optional(alloc, view, Demand::Repo, repo))?;
    creates(alloc, view, Record::Source(source))
}

/// A new citation of a source, for a person, a family or an event.
pub(crate) fn new_citation<V: View>(
    alloc: Global,
    view: &mut V,
    owner: u32,
    source: u32,
    page: &Field,
    quality: Option<Quality>,
) -> Result<Changes, RefusalKind>
    ensures decides { On V.View view.old view.new
        (λ c. Plans c result (steps.new_citation c owner source page.now quality)) }
    ensures exact { On V.View view.old view.new (λ c. IfOk result (IsExact c)) }
    ensures counts { CountsFailures (V.failed view.old) (V.failed view.new) result }
{
    let page = maybe_text_in(alloc, page)?;
    let page = kept_if(page, check_demand(alloc, view, Demand::Cited, owner))?;
    let page = kept_if(page, check_demand(alloc, view, Demand::Source, source))?;
    let citation = plain_citation(alloc, owner, source, page, quality);
    creates(alloc, view, Record::Citation(citation))
}

/// A repository of that name.
fn plain_repo(alloc: Global, name: Text) -> Repo
    ensures { result ≡ steps.plain_repo name }
{
    Repo {
        name: Some(name),
        carried: Vec::new(alloc),
    }
}

/// The source of these words. A call number needs a repository.
fn given_source(
    alloc: Global,
    title: &Field,
    author: &Field,
    publisher: &Field,
    repo: Option<u32>,
    call_number: &Field,
) -> Result<Source, RefusalKind>
    ensures decides { Agrees is_stop result
        (steps.given_source title.now author.now publisher.now repo call_number.now) }
    ensures memory { IfErr result (λ e. is_failure e ≡ false) }
{
    let title = text_in(alloc, title)?;
    let author = maybe_text_in(alloc, author)?;
    let publisher = maybe_text_in(alloc, publisher)?;
    let call_number = maybe_text_in(alloc, call_number)?;
    if lacks_repo(repo, &call_number) {
        return Err(RefusalKind::BadText);
    }
    Ok(plain_source(alloc, title, author, publisher, repo, call_number)?)
}

/// Whether a call number is given, and no repository.
fn lacks_repo(repo: Option<u32>, call_number: &Option<Text>) -> bool
    ensures { result ≡ steps.lacks_repo repo call_number.now }
{
    match (repo, call_number) {
        (None, Some(_)) => true,
        _ => false,
    }
}

fn plain_source(
    alloc: Global,
    title: Text,
    author: Option<Text>,
    publisher: Option<Text>,
    repo: Option<u32>,
    call_number: Option<Text>,
) -> Result<Source, AllocError>
    ensures { IfOk result (λ s. s ≡ steps.plain_source title author publisher repo call_number) }
{
    let mut holdings = Vec::new(alloc);
    if let Some(repo) = repo {
        holdings.push(Holding {
            repo,
            call_number,
            carried: Vec::new(alloc),
        })?;
    }
    Ok(Source {
        title: Some(title),
        author,
        publisher,
        holdings,
        carried: Vec::new(alloc),
    })
}

fn plain_citation(
    alloc: Global,
    owner: u32,
    source: u32,
    page: Option<Text>,
    quality: Option<Quality>,
) -> Citation
    ensures { result ≡ steps.plain_citation owner source page quality }
{
    Citation {
        owner,
        source,
        page,
        quality,
        carried: Vec::new(alloc),
    }
}
