//! The masked state, as a type.

ghost use Rattle.std.specs.Prelude.{◌≡◌};
ghost use Rattle.std.specs.FinMap as map;

use archive_state::State;
use std::alloc::Global;
use std::marker::Model;

/// What may be shown of an archive. Contracts see it as what an archive holds, without receipts and slips.
///
/// Only `shown` makes one: the field is private, and no other function of this crate answers a `Shown`. So no page
/// can be made of an archive that is not masked.
#[derive(Drop)]
pub struct Shown {
    state: State,
}

impl Model for Shown {
    ghost use Rattle.std.specs.Prelude.{◌≡◌};
    ghost use Rattle.std.specs.Coded.{codes, coded_ℕ, coded_list};
    ghost use Rattle.std.specs.FinMap as map;
    ghost use Rattle.stored_lines.specs.Line.{lines_code, value_code};
    ghost use Rattle.archive_state.specs.Content as content;

    ghost Value = { content.Content };

    ghost coded = { Prim.hlevel (codes, map.code, lines_code, value_code) };

    ghost view = { λ a. a.state };

    ghost invariant = { λ a. (a.state.receipts ≡ map.empty) × (a.state.slips ≡ map.empty) };
}

impl Shown {
    /// What is masked already.
    pub(crate) fn of_masked(alloc: Global, state: State) -> Shown
        ensures { result ≡ record state { receipts = map.empty; slips = map.empty } }
    {
        let state = state.records_alone(alloc);
        Shown { state }
    }

    /// What is shown, as a state.
    pub fn as_state(&self) -> &State
        ensures { result.now ≡ self.now }
    {
        &self.state
    }
}
