//! What tables have beside records, judged by these.

ghost use Rattle.std.specs.Prelude.{IfOk, MatchOption};
ghost use Rattle.table_looks.specs.Judging.{HaveOwn, IsLacking};

use crate::flaw::Flaw;
use crate::linking::first_unlinked;
use crate::seeking::first_unsought;
use crate::spanning::first_unspanned;
use archive_state::State;
use std::alloc::{AllocError, Global};
use std::marker::Model;
use store_tables::{LinkRow, SoughtRow, SpanRow};

/// The spans, the links and what is looked for, as tables have them.
#[derive(Drop)]
pub(crate) struct Beside {
    pub(crate) spans: Vec<SpanRow>,
    pub(crate) links: Vec<LinkRow>,
    pub(crate) soughts: Vec<SoughtRow>,
}

impl Model for Beside {
    ghost use Rattle.table_looks.specs.Judging as judging;

    ghost Value = { judging.Beside };

    ghost view = { λ b. record { spans = b.spans.items; links = b.links.items; soughts = b.soughts.items } };
}

/// The first flaw of these: of the spans, then of the links, then of what is looked for. `None`: each record of the
/// state has its own.
pub(crate) fn first_lacking(
    alloc: Global,
    held: &State,
    beside: Beside,
) -> Result<Option<Flaw>, AllocError>
    ensures { IfOk result (λ o. MatchOption o (HaveOwn beside held.now) (IsLacking held.now beside)) }
{
    let Beside {
        spans,
        links,
        soughts,
    } = beside;
    if let Some(number) = first_unspanned(alloc, held, spans)? {
        return Ok(Some(Flaw::Span(number)));
    }
    if let Some((number, named)) = first_unlinked(alloc, held, links)? {
        return Ok(Some(Flaw::Link(number, named)));
    }
    match first_unsought(alloc, held, soughts)? {
        Some(number) => Ok(Some(Flaw::Sought(number))),
        None => Ok(None),
    }
}
