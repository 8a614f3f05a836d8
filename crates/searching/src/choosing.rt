//! Which records are read to find those that are wanted.

ghost use Rattle.std.specs.Prelude.{◌≡◌};
ghost use Rattle.archive_state.specs.Looks.{CountsFailures, Looked};
ghost use Rattle.archive_state.specs.Views.{On};
ghost use Rattle.searching.specs.Choosing.{chosen, kinds_of, kinds_wanted, named_only};

use crate::wanted::{Kind, Wanted};
use kind_views::{KindView, Kinds};
use record_text::RefusalKind;
use std::alloc::Global;

/// The numbers of records, ascending, among which are all that are wanted.
pub(crate) fn numbers_for<V: KindView>(
    alloc: Global,
    view: &mut V,
    wanted: &Wanted,
) -> Result<Vec<u32>, RefusalKind>
    ensures shows { On V.View view.old view.new (λ c. Looked result
        (λ found. found.items ≡ chosen (kinds_wanted wanted.now) c)) }
    ensures counts { CountsFailures (V.View.failed view.old) (V.View.failed view.new) result }
{
    match kinds_wanted(wanted) {
        Some(kinds) => view.numbers_of(alloc, kinds),
        None => view.record_numbers(alloc),
    }
}

/// The kinds of which all records are that are wanted. `None`: each kind.
fn kinds_wanted(wanted: &Wanted) -> Option<Kinds>
    ensures { result ≡ kinds_wanted wanted.now }
{
    match wanted.kind {
        Some(kind) => Some(kinds_of(kind)),
        None => match wanted.source {
            Some(_) => Some(Kinds::Entries),
            None => named_only(wanted),
        },
    }
}

/// The same of what is wanted of each kind and source.
fn named_only(wanted: &Wanted) -> Option<Kinds>
    ensures { result ≡ named_only wanted.now.words }
{
    if wanted.words.is_empty() {
        None
    } else {
        Some(Kinds::Named)
    }
}

/// The records of a kind.
fn kinds_of(kind: Kind) -> Kinds
    ensures { result ≡ kinds_of kind }
{
    match kind {
        Kind::Persons => Kinds::Persons,
        Kind::Families => Kinds::Families,
        Kind::Events => Kinds::Events,
        Kind::Places => Kinds::Places,
        Kind::Repositories => Kinds::Repositories,
        Kind::Sources => Kinds::Sources,
        Kind::Citations => Kinds::Citations,
        Kind::Entries => Kinds::Entries,
        Kind::Others => Kinds::Others,
    }
}
