//! Whether one person is living.

ghost use Rattle.std.specs.Prelude.{◌↔◌, IfErr, IfOk, IsTrue};
ghost use Rattle.masking.specs.Life.{IsLiving, IsPersonAt};
ghost use Rattle.masking.specs.Judged.{IsRefused};

use crate::judgement::living_persons;
use archive_state::State;
use record_kinds::Record;
use record_text::{Refusal, RefusalKind};
use std::alloc::Global;

/// Whether a person is living on a day, counted from 1970-01-01, day 0. 50: there is no record of that number. 51: it
/// is of another kind. 1: memory was refused.
pub fn living(alloc: Global, state: &State, person: u32, today: i32) -> Result<bool, Refusal>
    ensures told { IfOk result (λ b. IsTrue b ↔ IsLiving state.now.records today person) }
    ensures there { IfOk result (λ b. IsPersonAt state.now.records person) }
    ensures refused { IfErr result (λ e. IsRefused state.now.records person e) }
{
    match state.record(person) {
        None => return Err(Refusal::from(RefusalKind::NoSuch)),
        Some(Record::Person(_)) => {}
        Some(_) => return Err(Refusal::from(RefusalKind::WrongKind)),
    }
    let found = living_persons(alloc, state, today)?;
    Ok(found.contains(&person))
}
