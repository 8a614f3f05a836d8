//! What holds of batches, over the definitions that the contracts cite.

ghost use Rattle.std.specs.Prelude.{◌≡◌, ℕ, List, Ok};
ghost use Rattle.receipts.specs.declared.answer.Answer.{Answer};
ghost use Rattle.archive_state.specs.Content.{Content};
ghost use Rattle.archive_state.specs.Sound.{IsSound};
ghost use Rattle.command_checks.specs.Numbers.{Draws, UsesNoneAgain};
ghost use Rattle.commands.specs.declared.entry_row.EntryRow.{EntryRow};
ghost use Rattle.entry_batches.specs.Batches.{batch_step};
ghost use Rattle.entry_batches.specs.Laws.{all_commands};
ghost use Rattle.entry_batches.specs.Words.{AreUtf8Entries};

/// In a sound archive a batch is the commands of its rows, one after the other: it makes what they make, and where one
/// of them is refused it is refused so, at the place of that row.
pub fn a_batch_is_the_commands_of_its_rows()
    ensures { (c : Content) (source : ℕ) (rows : List EntryRow) → IsSound c
        → batch_step c source rows ≡ all_commands c source rows }
{}

/// A batch leaves a sound archive sound. Its words are what a `String` can hold: the type of its rows keeps that, and
/// here any rows are meant.
pub fn a_batch_keeps_an_archive_sound()
    ensures { (c after : Content) (source : ℕ) (rows : List EntryRow) (a : Answer) → AreUtf8Entries rows → IsSound c
        → batch_step c source rows ≡ Ok (after, a) → IsSound after }
{}

/// An accepted batch draws the numbers from the next one of before up to that of after, each for an entry, and is
/// answered with the first of them and their count.
pub fn an_answer_has_the_numbers_of_the_entries()
    ensures { (c after : Content) (source : ℕ) (rows : List EntryRow) (a : Answer)
        → batch_step c source rows ≡ Ok (after, a) → Draws c a after }
{}

/// And it uses no number again.
pub fn a_batch_uses_no_number_again()
    ensures { (c after : Content) (source : ℕ) (rows : List EntryRow) (a : Answer)
        → batch_step c source rows ≡ Ok (after, a) → UsesNoneAgain c after }
{}
