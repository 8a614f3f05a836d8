//! Decides a merge over a view: what it changes, or its refusal.

ghost use Rattle.std.specs.Prelude.{◌≡◌, ◌++◌, ◌+◌, ◌∷◌, [], ◌==◌, IfOk, None, Some, false, not};
ghost use Rattle.std.specs.FinMap as map;
ghost use Rattle.std.specs.List.{flat_map, list_any};
ghost use Rattle.record_kinds.specs.Model as model;
ghost use Rattle.record_kinds.specs.declared.record.Record.{Record as Rec};
ghost use Rattle.record_kinds.specs.declared.record.Record.TheVariants as kind;
ghost use Rattle.record_text.specs.declared.refusal.RefusalKind.TheVariants.{MergeWithinFamily};
ghost use Rattle.archive_state.specs.Merging as merging;
ghost use Rattle.archive_state.specs.declared.changes.SlipChange.TheVariants as change;
ghost use Rattle.archive_state.specs.Looks.{Agrees, CountsFailures, Looked, is_stop};
ghost use Rattle.archive_state.specs.Views.{On};
ghost use Rattle.command_checks.specs.Applied.{Plans};
ghost use Rattle.command_checks.specs.Checks.{need};
ghost use Rattle.command_checks.specs.Exact.{IsExact};
ghost use Rattle.merging.specs.Looks as looks;
ghost use Rattle.merging.specs.Merges as specs;
ghost use Rattle.merging.specs.Steps.{merge_step};

use crate::finding::changed_numbers;
use crate::new_records::{merged_person, merged_record};
use archive_state::{Change, Changes, Numbered, Slip, SlipChange, View};
use command_checks::{next_free, person_at};
use receipts::Answer;
use record_kinds::{Family, Person, Record};
use record_text::RefusalKind;
use records::copy_record;
use std::alloc::{AllocError, Global};

/// The changes that make one person of two, with the slip that is kept of it; or its refusal.
pub fn merge<V: View>(
    alloc: Global,
    view: &mut V,
    keep: u32,
    gone: u32,
) -> Result<Changes, RefusalKind>
    ensures decides { On V.View view.old view.new (λ c. Plans c result (merge_step c keep gone)) }
    ensures exact { On V.View view.old view.new (λ c. IfOk result (IsExact c)) }
    ensures counts { CountsFailures (V.failed view.old) (V.failed view.new) result }
{
    drop(person_at(alloc, view, keep)?);
    let adds_nothing = person_adds_nothing(person_at(alloc, view, gone)?);
    if keep == gone {
        return Err(RefusalKind::SamePerson);
    }
    check_families(alloc, view, keep, gone)?;
    let number = next_free(alloc, view)?;
    made_changes(alloc, view, keep, gone, number, adds_nothing)
}

/// Whether the person has no name, no sex and no carried line.
fn person_adds_nothing(person: Person) -> bool
    ensures { result ≡ specs.adds_nothing (Some (kind.Person person)) }
{
    person.names.is_empty() && person.sex.is_none() && person.carried.is_empty()
}

/// That no family has both, but with both as its children.
#[tactic(auto, using(crate::proofs::Deciding::clash_found))]
fn check_families<V: View>(
    alloc: Global,
    view: &mut V,
    keep: u32,
    gone: u32,
) -> Result<(), RefusalKind>
    ensures decides { On V.View view.old view.new
        (λ c. Agrees is_stop result (need (not (specs.is_clash keep gone c.records)) MergeWithinFamily)) }
    ensures counts { CountsFailures (V.failed view.old) (V.failed view.new) result }
{
    let numbers = view.referrers(alloc, gone)?;
    if clash_among(alloc, view, keep, gone, numbers.as_slice())? {
        Err(RefusalKind::MergeWithinFamily)
    } else {
        Ok(())
    }
}

/// Whether one of these numbers is that of a family of both, but with both as its children.
fn clash_among<V: View>(
    alloc: Global,
    view: &mut V,
    keep: u32,
    gone: u32,
    numbers: &[u32],
) -> Result<bool, RefusalKind>
    ensures shows { On V.View view.old view.new
        (λ c. Looked result (λ is. is ≡ looks.clashes_among keep gone c.records numbers.now)) }
    ensures counts { CountsFailures (V.failed view.old) (V.failed view.new) result }
{
    'numbers: for number in numbers {
        if clashes_at(alloc, view, keep, gone, *number)? {
            return Ok(true);
        }
    }
    Ok(false)
}

fn clashes_at<V: View>(
    alloc: Global,
    view: &mut V,
    keep: u32,
    gone: u32,
    number: u32,
) -> Result<bool, RefusalKind>
    ensures shows { On V.View view.old view.new
        (λ c. Looked result (λ is. is ≡ looks.clashes_in keep gone (map.get c.records number))) }
    ensures counts { CountsFailures (V.failed view.old) (V.failed view.new) result }
{
    Ok(clashes_in(view.record_at(alloc, number)?, keep, gone))
}

fn clashes_in(found: Option<Record>, keep: u32, gone: u32) -> bool
    ensures { result ≡ looks.clashes_in keep gone found }
{
    match found {
        Some(Record::Family(family)) => clashes(&family, keep, gone),
        _ => false,
    }
}

fn clashes(family: &Family, keep: u32, gone: u32) -> bool
    ensures { result ≡ merging.clashes keep gone (kind.Family family.now) }
{
    has_member(family, keep)
        && has_member(family, gone)
        && !(has_child(family, keep) && has_child(family, gone))
}

fn has_member(family: &Family, person: u32) -> bool
    ensures { result ≡ merging.has_member person family.now }
{
    has_partner(family, person) || has_child(family, person)
}

fn has_partner(family: &Family, person: u32) -> bool
    ensures { result ≡ list_any (λ (p : model.Partner). p.person == person) family.now.partners }
{
    family.partners.iter().any(|p| p.person == person)
}

fn has_child(family: &Family, person: u32) -> bool
    ensures { result ≡ merging.has_child person family.now }
{
    family.children.iter().any(|c| c.person == person)
}

/// The changes of an accepted merge.
fn made_changes<V: View>(
    alloc: Global,
    view: &mut V,
    keep: u32,
    gone: u32,
    number: u32,
    adds_nothing: bool,
) -> Result<Changes, RefusalKind>
    ensures shows { On V.View view.old view.new
        (λ c. Looked result (λ made. (k g : Rec) → map.get c.records keep ≡ Some k → map.get c.records gone ≡ Some g
        → adds_nothing ≡ specs.adds_nothing (Some g) → made ≡ looks.made_changes keep gone c number)) }
    ensures counts { CountsFailures (V.failed view.old) (V.failed view.new) result }
{
    let numbers = changed_numbers(alloc, view, keep, gone, adds_nothing)?;
    let changes = changes_at(alloc, view, keep, gone, numbers.as_slice())?;
    Ok(changes_of_merge(alloc, keep, gone, number, changes)?)
}

/// The changes of the records of these numbers.
fn changes_at<V: View>(
    alloc: Global,
    view: &mut V,
    keep: u32,
    gone: u32,
    numbers: &[u32],
) -> Result<Vec<Change>, RefusalKind>
    ensures shows { On V.View view.old view.new
        (λ c. Looked result (λ changes. changes.items ≡ looks.changes_of keep gone c.records numbers.now)) }
    ensures counts { CountsFailures (V.failed view.old) (V.failed view.new) result }
{
    let mut changes = Vec::new(alloc);
    'numbers: for number in numbers {
        push_change(alloc, view, keep, gone, *number, &mut changes)?;
    }
    Ok(changes)
}

/// Adds the change of a number, where a record stands.
fn push_change<V: View>(
    alloc: Global,
    view: &mut V,
    keep: u32,
    gone: u32,
    number: u32,
    changes: &mut Vec<Change>,
) -> Result<(), RefusalKind>
    ensures shows { On V.View view.old view.new (λ c. Looked result (λ _. changes.new.items ≡ changes.old.items
        ++ looks.change_of keep gone c.records number (map.get c.records number))) }
    ensures counts { CountsFailures (V.failed view.old) (V.failed view.new) result }
{
    let Some(old) = view.record_at(alloc, number)? else {
        return Ok(());
    };
    match new_at(alloc, view, keep, gone, number, &old) {
        Ok(new) => Ok(push(changes, Change { number, old, new })?),
        Err(e) => {
            drop(old);
            Err(e)
        }
    }
}

/// What stands at a number after the merge, of the record that stands there now.
fn new_at<V: View>(
    alloc: Global,
    view: &mut V,
    keep: u32,
    gone: u32,
    number: u32,
    old: &Record,
) -> Result<Option<Record>, RefusalKind>
    ensures shows { On V.View view.old view.new
        (λ c. Looked result (λ new. map.get c.records number ≡ Some old.now → new ≡ merging.merged keep gone
        (map.get c.records) number)) }
    ensures counts { CountsFailures (V.failed view.old) (V.failed view.new) result }
{
    if number == gone {
        return Ok(None);
    }
    if number == keep {
        let other = view.record_at(alloc, gone)?;
        return Ok(Some(merged_person(alloc, old, other.as_ref(), keep, gone)?));
    }
    Ok(Some(merged_record(alloc, old, keep, gone)?))
}

/// Adds an item after the others.
fn push<T: Drop>(items: &mut Vec<T>, item: T) -> Result<(), AllocError>
    ensures { IfOk result (λ _. items.new.items ≡ items.old.items ++ (item ∷ [])) }
{
    items.push(item)?;
    Ok(())
}

/// The new records put, the one that is gone removed, and the slip made.
fn changes_of_merge(
    alloc: Global,
    keep: u32,
    gone: u32,
    number: u32,
    changes: Vec<Change>,
) -> Result<Changes, AllocError>
    ensures { IfOk result (λ made. made ≡ record {
      puts = flat_map specs.put_new changes.items;
      removals = gone ∷ [];
      next = number + 1;
      answer = record { first = number; count = 1 };
      kept = None;
      slip = Some (change.Made number
          (record { keep = keep; gone = gone; changes = changes.items; is_undone = false }));
    }) }
{
    let puts = new_puts(alloc, &changes)?;
    let mut removals = Vec::new(alloc);
    removals.push(gone)?;
    let slip = Slip {
        keep,
        gone,
        changes,
        is_undone: false,
    };
    Ok(Changes {
        puts,
        removals,
        next: u64::from(number) + 1,
        answer: Answer {
            first: number,
            count: 1,
        },
        kept: None,
        slip: Some(SlipChange::Made(number, slip)),
    })
}

/// The new records at their numbers.
fn new_puts(alloc: Global, changes: &[Change]) -> Result<Vec<Numbered>, AllocError>
    ensures { IfOk result (λ puts. puts.items ≡ flat_map specs.put_new changes.now) }
{
    let mut puts = Vec::new(alloc);
    'changes: for change in changes {
        push_new(alloc, &mut puts, change)?;
    }
    Ok(puts)
}

fn push_new(alloc: Global, puts: &mut Vec<Numbered>, change: &Change) -> Result<(), AllocError>
    ensures { IfOk result (λ _. puts.new.items ≡ puts.old.items ++ specs.put_new change.now) }
{
    if let Some(new) = &change.new {
        let record = copy_record(alloc, new)?;
        puts.push(Numbered {
            number: change.number,
            record,
        })?;
    }
    Ok(())
}
