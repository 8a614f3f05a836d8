//! What holds of a merge, and of what undoes it.

ghost use Rattle.std.specs.Prelude.{◌≡◌, ◌+◌, ℕ, [], ◌∷◌, true, false, Ok, Err, Some, None, map};
ghost use Rattle.std.specs.List.{flat_map};
ghost use Rattle.std.specs.FinMap.{get};
ghost use Rattle.archive_state.specs.Applied.{applied};
ghost use Rattle.archive_state.specs.Content.{Content};
ghost use Rattle.archive_state.specs.Merging.{merged};
ghost use Rattle.archive_state.specs.Slips.{Slip};
ghost use Rattle.archive_state.specs.Sound.{IsSound, old_records};
ghost use Rattle.archive_state.specs.declared.changes.SlipChange.TheVariants as change;
ghost use Rattle.archive_state.specs.declared.slip.Change.{Change};
ghost use Rattle.record_kinds.specs.declared.record.Record.{Record};
ghost use Rattle.record_text.specs.declared.refusal.RefusalKind.TheVariants.{AlreadyUndone, ChangedSince};
ghost use Rattle.receipts.specs.declared.answer.Answer.{Answer};
ghost use Rattle.merging.specs.Comparing.{IsNow};
ghost use Rattle.merging.specs.Merges.{
  HoldsChanges,
  changed_numbers,
  merge_changes,
  over,
  put_new,
  put_old,
  slip_of,
  with_merge,
  with_undo,
};
ghost use Rattle.merging.specs.Steps.{merge_step, undo_step};
ghost use Rattle.command_checks.specs.Numbers.{Draws, UsesNoneAgain};

/// A merge leaves a sound archive sound, with its slip.
pub fn a_merge_keeps_an_archive_sound()
    ensures { (c after : Content) (keep gone : ℕ) (a : Answer) → IsSound c → merge_step c keep gone ≡ Ok (after, a)
        → IsSound after }
{}

/// So does the undoing of a slip, at whatever time.
pub fn an_undoing_keeps_an_archive_sound()
    ensures { (c after : Content) (n : ℕ) (a : Answer) → IsSound c → undo_step c n ≡ Ok (after, a) → IsSound after }
{}

/// A merge changes the number in all records, and makes one person of two.
pub fn a_merge_is_of_all_records()
    ensures { (c after : Content) (keep gone : ℕ) (a : Answer) (n : ℕ) → IsSound c
        → merge_step c keep gone ≡ Ok (after, a)
        → get after.records n ≡ merged keep gone (get c.records) n }
{}

/// A merge that is undone at once gives the records of before.
pub fn a_merge_is_undone()
    ensures { (c after : Content) (keep gone : ℕ) (a : Answer) → merge_step c keep gone ≡ Ok (after, a)
        → (back : Content) × (undo_step after a.first ≡ Ok (back, record { first = 0; count = 0 }))
        × (back.records ≡ c.records) }
{}

/// A merge draws one number, that of its slip.
pub fn a_merge_draws_its_slip()
    ensures { (c after : Content) (keep gone : ℕ) (a : Answer) → merge_step c keep gone ≡ Ok (after, a)
        → Draws c a after }
{}

/// No number is used twice when persons are merged, and one that is used up stays so.
pub fn a_merge_uses_no_number_again()
    ensures { (c after : Content) (keep gone : ℕ) (a : Answer) → merge_step c keep gone ≡ Ok (after, a)
        → UsesNoneAgain c after }
{}

/// An undoing draws no number.
pub fn an_undoing_draws_none()
    ensures { (c after : Content) (k : ℕ) (a : Answer) → undo_step c k ≡ Ok (after, a) → Draws c a after }
{}

/// Nor does it use one again.
pub fn an_undoing_uses_no_number_again()
    ensures { (c after : Content) (k : ℕ) (a : Answer) → undo_step c k ≡ Ok (after, a) → UsesNoneAgain c after }
{}

/// An undoing puts back the old records of its slip, and leaves all others.
pub fn an_undoing_restores_its_slip()
    ensures { (c after : Content) (n : ℕ) (a : Answer) → IsSound c → undo_step c n ≡ Ok (after, a)
        → (s : Slip) × (get c.slips n ≡ Some s)
        × ((k : ℕ) → get after.records k ≡ over (get (old_records s) k) (get c.records k)) }
{}

/// The undoing of a slip that was undone is refused with `AlreadyUndone`, else that of one of which a number has not
/// its new record with `ChangedSince`, and else it is done.
pub fn an_undoing_is_done_where_nothing_changed_since()
    ensures { (c : Content) (n : ℕ) (s : Slip) → get c.slips n ≡ Some s
        → (s.is_undone ≡ true → undo_step c n ≡ Err AlreadyUndone)
        × (s.is_undone ≡ false → IsNow c.records s.changes → undo_step c n ≡ Ok
        (with_undo n s c, record { first = 0; count = 0 }))
        × (s.is_undone ≡ false → (IsNow c.records s.changes → ⊥) → undo_step c n ≡ Err ChangedSince) }
{}

/// The slip of a merge holds each number whose record differs, and no other.
pub fn a_slip_holds_what_changed()
    ensures { (c after : Content) (keep gone : ℕ) (a : Answer) → IsSound c → merge_step c keep gone ≡ Ok (after, a)
        → (s : Slip) × (get after.slips a.first ≡ Some s) × HoldsChanges keep gone c.records s }
{}

/// The changed numbers are those of the records that name the one that is gone, and the two.
pub fn changed_numbers_are_of_referrers()
    ensures { (keep gone : ℕ) (c : Content) (k g : Record) → get c.records keep ≡ Some k → get c.records gone ≡ Some g
        → map (λ (x : Change). x.number) (merge_changes keep gone c.records) ≡ changed_numbers keep gone c }
{}

/// The new records put, the one that is gone removed and the slip made: these changes leave what the merge leaves.
pub fn changes_of_a_merge()
    ensures { (c : Content) (keep gone : ℕ) (a : Answer)
        → applied c (record {
          puts = flat_map put_new (merge_changes keep gone c.records);
          removals = gone ∷ [];
          next = c.next + 1;
          answer = a;
          kept = None;
          slip = Some (change.Made c.next (slip_of keep gone c.records));
        })
        ≡ with_merge keep gone c (c.next + 1) }
{}

/// The old records put, and the slip undone: these leave what the undoing leaves.
pub fn changes_of_an_undoing()
    ensures { (c : Content) (n : ℕ) (s : Slip) (a : Answer) → get c.slips n ≡ Some s
        → applied c (record {
          puts = flat_map put_old s.changes;
          removals = [];
          next = c.next;
          answer = a;
          kept = None;
          slip = Some (change.Undone n);
        })
        ≡ with_undo n s c }
{}
