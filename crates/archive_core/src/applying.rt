//! Changes made on a state, all of them or none.

ghost use Rattle.std.specs.Prelude.{◌≡◌, ◌≢◌, ℕ, IfOk, OnOk, OnErr, None, option_map};
ghost use Rattle.std.specs.FinMap as map;
ghost use Rattle.archive_state.specs.Content.{Records, Slips};
ghost use Rattle.archive_state.specs.Slips.{Slip};
ghost use Rattle.record_shapes.specs.Lists.{EachOf};
ghost use Rattle.archive_state.specs.declared.changes.Numbered.{Numbered};
ghost use Rattle.archive_state.specs.Applied as specs;
ghost use Rattle.archive_core.specs.Room as room;

use archive_state::{Changes, Kept, Numbered, Slip, SlipChange, State};
use receipts::Answer;
use record_kinds::{Person, Record};
use std::alloc::{AllocError, Global};
use std::collections::VecDeque;

/// Makes the changes of a request, and answers its answer. Refused only if out of memory, and then nothing is
/// changed. What takes memory comes first: a blank record wherever a new one will be, then the slip and the receipt.
/// Where one of these is refused, the blank records are removed again. What comes last takes no memory: the records,
/// the removals and the next number. So any number of records is put with the same stack.
#[tactic(auto, using(crate::proofs::Room::put_in_room))]
pub fn apply(alloc: Global, state: &mut State, changes: Changes) -> Result<Answer, AllocError>
    ensures ok { IfOk result (λ answer. answer ≡ changes.answer) }
    ensures applied { OnOk result (state.new ≡ specs.applied state.old changes) }
    ensures err { OnErr result (state.new ≡ state.old) }
{
    let Changes {
        puts,
        removals,
        next,
        answer,
        kept,
        slip,
    } = changes;
    make_ready(alloc, state, &puts, slip, kept)?;
    put_all(state, puts);
    remove_all(state, &removals);
    state.set_next(next);
    Ok(answer)
}

/// Does what takes memory: room for the records, the slip, and the receipt.
fn make_ready(
    alloc: Global,
    state: &mut State,
    puts: &[Numbered],
    slip: Option<SlipChange>,
    kept: Option<Kept>,
) -> Result<(), AllocError>
    ensures ok { OnOk result (state.new ≡ record state.old {
      records = room.with_room state.old.records puts.now;
      slips = specs.with_slip state.old.slips slip;
      receipts = specs.with_kept state.old.receipts kept;
    }) }
    ensures err { OnErr result (state.new ≡ state.old) }
{
    let room = make_room(alloc, state, puts)?;
    match change_slip(alloc, state, slip, kept) {
        Ok(()) => Ok(()),
        Err(e) => {
            take_out(state, room);
            Err(e)
        }
    }
}

/// Puts a blank record at each number that has none, and answers these numbers, the last first.
#[tactic(auto, using(crate::proofs::Room::room_for_one_more))]
fn make_room(
    alloc: Global,
    state: &mut State,
    puts: &[Numbered],
) -> Result<VecDeque<u32>, AllocError>
    ensures ok { OnOk result (state.new ≡ record state.old { records = room.with_room state.old.records puts.now }) }
    ensures back { IfOk result (λ blanks. specs.without state.new.records blanks.items ≡ state.old.records) }
    ensures err { OnErr result (state.new ≡ state.old) }
{
    let mut blanks = VecDeque::new(alloc);
    'puts: for put in puts {
        if let Err(e) = make_one(alloc, state, &mut blanks, put.number) {
            take_out(state, blanks);
            return Err(e);
        }
    }
    Ok(blanks)
}

/// Puts a blank record at a number that has none, and the number before the others. At a refusal neither is done.
fn make_one(
    alloc: Global,
    state: &mut State,
    blanks: &mut VecDeque<u32>,
    number: u32,
) -> Result<(), AllocError>
    ensures ok { OnOk result (state.new ≡ record state.old { records = room.with_blank state.old.records number }) }
    ensures back { specs.without state.new.records blanks.new.items ≡ specs.without state.old.records blanks.old.items }
    ensures err { OnErr result (state.new ≡ state.old) }
{
    if state.record(number).is_some() {
        return Ok(());
    }
    drop(state.put_record(number, blank(alloc))?);
    match blanks.push_front(number) {
        Ok(()) => Ok(()),
        Err(e) => {
            drop(state.remove_record(number));
            Err(e.into())
        }
    }
}

/// A record that takes no memory of its own.
fn blank(alloc: Global) -> Record
    ensures { result ≡ room.blank }
{
    Record::Person(Person {
        names: Vec::new(alloc),
        sex: None,
        carried: Vec::new(alloc),
    })
}

/// Takes the records of these numbers out, and gives the list back. Takes no memory.
fn take_out(state: &mut State, numbers: VecDeque<u32>)
    ensures { state.new ≡ record state.old { records = specs.without state.old.records numbers.items } }
{
    let mut numbers = numbers;
    'numbers: while let Some(blank) = numbers.pop_front() {
        drop(state.remove_record(blank));
    }
}

/// Puts the records at their numbers, each of which has one. Takes no memory.
fn put_all(state: &mut State, puts: Vec<Numbered>)
    requires { EachOf (λ (p : Numbered). map.get state.now.records p.number ≢ None) puts.items }
    ensures { state.new ≡ specs.with_all state.old puts.items }
{
    let mut puts = puts.into_iter();
    'puts: while let Some(put) = puts.next() {
        put_over(state, put);
    }
}

/// Puts a record at its number, which has one. Takes no memory.
fn put_over(state: &mut State, put: Numbered)
    requires { map.get state.now.records put.number ≢ None }
    ensures { state.new ≡ record state.old { records = map.insert state.old.records put.number put.«record» } }
{
    let Numbered { number, record } = put;
    if let Ok(before) = state.put_record(number, record) {
        drop(before);
    }
}

/// Takes the records of these numbers out. Takes no memory.
fn remove_all(state: &mut State, numbers: &[u32])
    ensures { state.new ≡ record state.old { records = specs.without state.old.records numbers.now } }
{
    'numbers: for number in numbers {
        drop(state.remove_record(*number));
    }
}

/// Makes or undoes a slip, and keeps the receipt.
fn change_slip(
    alloc: Global,
    state: &mut State,
    change: Option<SlipChange>,
    kept: Option<Kept>,
) -> Result<(), AllocError>
    ensures ok { OnOk result (state.new ≡ record state.old {
      slips = specs.with_slip state.old.slips change;
      receipts = specs.with_kept state.old.receipts kept;
    }) }
    ensures err { OnErr result (state.new ≡ state.old) }
{
    match change {
        None => keep(state, kept),
        Some(SlipChange::Made(number, slip)) => put_slip(state, number, slip, kept),
        Some(SlipChange::Undone(number)) => match undone_slip(alloc, state, number)? {
            Some(slip) => put_slip(state, number, slip, kept),
            None => keep(state, kept),
        },
    }
}

/// The slip of a number, undone.
fn undone_slip(alloc: Global, state: &State, number: u32) -> Result<Option<Slip>, AllocError>
    ensures { IfOk result (λ slip. slip ≡ option_map specs.as_undone (map.get state.now.slips number)) }
{
    match state.slip(number) {
        Some(slip) => {
            let mut slip = slip.copy(alloc)?;
            slip.is_undone = true;
            Ok(Some(slip))
        }
        None => Ok(None),
    }
}

/// Puts a slip, and keeps the receipt.
fn put_slip(
    state: &mut State,
    number: u32,
    slip: Slip,
    kept: Option<Kept>,
) -> Result<(), AllocError>
    ensures ok { OnOk result (state.new ≡ record state.old {
      slips = map.insert state.old.slips number slip;
      receipts = specs.with_kept state.old.receipts kept;
    }) }
    ensures err { OnErr result (state.new ≡ state.old) }
{
    let before = state.put_slip(number, slip)?;
    match keep(state, kept) {
        Ok(()) => {
            drop(before);
            Ok(())
        }
        Err(e) => {
            put_slip_back(state, number, before);
            Err(e)
        }
    }
}

/// Puts back what stood at a number before another slip was put there. Takes no memory.
#[tactic(auto, using(crate::proofs::Undo::slip_taken_out, crate::proofs::Undo::slip_put_over, crate::proofs::Undo::slip_stands))]
fn put_slip_back(state: &mut State, number: u32, before: Option<Slip>)
    ensures { (m : Slips) (s : Slip) → state.old.slips ≡ map.insert m number s → before ≡ map.get m number
        → state.new ≡ record state.old { slips = m } }
{
    match before {
        None => drop(state.remove_slip(number)),
        Some(old) => {
            if let Ok(replaced) = state.put_slip(number, old) {
                drop(replaced);
            }
        }
    }
}

/// Keeps a receipt, where there is one.
fn keep(state: &mut State, kept: Option<Kept>) -> Result<(), AllocError>
    ensures ok { OnOk result (state.new ≡ record state.old { receipts = specs.with_kept state.old.receipts kept }) }
    ensures err { OnErr result (state.new ≡ state.old) }
{
    if let Some(kept) = kept {
        state.put_receipt(kept.token, kept.receipt)?;
    }
    Ok(())
}
