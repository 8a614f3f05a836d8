//! The tasks of `list`, `find` and `review`.

ghost use Rattle.std.specs.Prelude.{◌≡◌};
ghost use Rattle.parish.specs.Lists as lists;

use command_line::{ListKind, RecordKind};
use record_lists::{Chosen, Listed};
use row_references::NumberWord;
use searching::{Kind, Listing, SearchWords, Wanted};
use std::alloc::Global;
use tasks::Task;

/// The most lines that `find` prints without a limit: docs/FORMATS.md.
const MOST_FOUND: u32 = 1000;

/// `list`: the records of a kind, or the slips, after a number; of register entries those of a source where one is
/// given.
pub(crate) fn list_task(
    alloc: Global,
    kind: ListKind,
    source: Option<NumberWord>,
    after: u32,
    limit: Option<u32>,
    csv: bool,
) -> Task
    ensures { result ≡ lists.list_task kind source after limit csv }
{
    Task::List {
        source,
        listing: Listed {
            of: chosen_of(alloc, kind, after, limit_of(limit)),
            is_csv: csv,
        },
    }
}

/// The slips, or the records of a kind.
fn chosen_of(alloc: Global, kind: ListKind, after: u32, limit: usize) -> Chosen
    ensures { result ≡ lists.chosen_of kind after limit }
{
    match kind {
        ListKind::Slips => Chosen::Slips { after, limit },
        ListKind::Records(kind) => records_chosen(alloc, kind, after, limit),
    }
}

/// The records of a kind.
fn records_chosen(alloc: Global, kind: RecordKind, after: u32, limit: usize) -> Chosen
    ensures { result ≡ lists.records_chosen kind after limit }
{
    let wanted = Wanted {
        kind: Some(kind_of(kind)),
        source: None,
        words: SearchWords::new(alloc),
    };
    Chosen::Records {
        listing: Listing {
            wanted,
            after,
            limit,
            counts_others: false,
        },
    }
}

/// `find`: the records, of a kind where one is given, with a name in which the words occur, and how many are left out.
pub(crate) fn find_task(
    words: SearchWords,
    kind: Option<RecordKind>,
    limit: Option<u32>,
    csv: bool,
) -> Task
    ensures { result ≡ lists.find_task words kind limit csv }
{
    let kind = match kind {
        Some(kind) => Some(kind_of(kind)),
        None => None,
    };
    let wanted = Wanted {
        kind,
        source: None,
        words,
    };
    let listing = Listing {
        wanted,
        after: 0,
        limit: limit.unwrap_or(MOST_FOUND) as usize,
        counts_others: true,
    };
    Task::List {
        source: None,
        listing: Listed {
            of: Chosen::Records { listing },
            is_csv: csv,
        },
    }
}

/// `review`: what is doubtful.
pub(crate) fn review_task(csv: bool) -> Task
    ensures { result ≡ lists.review_task csv }
{
    Task::List {
        source: None,
        listing: Listed {
            of: Chosen::Doubts,
            is_csv: csv,
        },
    }
}

fn limit_of(limit: Option<u32>) -> usize
    ensures { result ≡ lists.limit_of limit }
{
    match limit {
        Some(limit) => limit as usize,
        None => usize::MAX,
    }
}

fn kind_of(kind: RecordKind) -> Kind
    ensures { result ≡ lists.kind_of kind }
{
    match kind {
        RecordKind::Persons => Kind::Persons,
        RecordKind::Families => Kind::Families,
        RecordKind::Events => Kind::Events,
        RecordKind::Places => Kind::Places,
        RecordKind::Repositories => Kind::Repositories,
        RecordKind::Sources => Kind::Sources,
        RecordKind::Citations => Kind::Citations,
        RecordKind::Entries => Kind::Entries,
        RecordKind::Others => Kind::Others,
    }
}
