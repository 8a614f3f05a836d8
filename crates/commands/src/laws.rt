//! What holds of rows and commands, over the definitions that the contracts cite.

ghost use Rattle.std.specs.Prelude.{◌≡◌, ◌++◌, [], ℕ, List, Ok, Result, Some};
ghost use Rattle.csv.specs.Machine.{next_record};
ghost use Rattle.csv.specs.Reading.{default_config};
ghost use Rattle.csv.specs.declared.parser.State.TheVariants as state;
ghost use Rattle.record_text.specs.declared.refusal.RefusalKind.{RefusalKind};
ghost use Rattle.commands.specs.Bytes.{Wording, bytes_of, entry_fields, row_of, written};
ghost use Rattle.commands.specs.Rows.{Reads, ReadsEntry};
ghost use Rattle.commands.specs.Sound.{IsOneCommand, IsSound, IsSoundEntry, IsSoundRow, IsSoundWording};
ghost use Rattle.commands.specs.declared.command.Command.{Command};
ghost use Rattle.commands.specs.declared.command.Command.TheVariants as command;
ghost use Rattle.commands.specs.declared.entry_row.EntryRow.{EntryRow};
ghost use Rattle.commands.specs.declared.row_command.RowCommand.{RowCommand};

/// Each row is read as one command, or refused for one reason.
pub fn a_row_is_read_in_one_way()
    ensures some { (row : List (List ℕ)) → (outcome : Result RowCommand RefusalKind) × Reads row outcome }
    ensures one { (row : List (List ℕ)) (first second : Result RowCommand RefusalKind)
        → Reads row first → Reads row second → first ≡ second }
{}

/// What a row is read as has its numbers in range, and dates as given ones are.
pub fn what_a_row_is_read_as_is_sound()
    ensures { (row : List (List ℕ)) (command : RowCommand) → Reads row (Ok command) → IsSoundRow command }
{}

/// The row of a command of one row is read as that command, where its numbers are in range and its dates are as given
/// ones are.
pub fn a_row_of_a_command_is_read_as_it()
    ensures { (command : RowCommand) → IsSoundRow command → Reads (row_of command) (Ok command) }
{}

/// Each row of a batch is read as one register entry, or refused for one reason.
pub fn a_row_of_a_batch_is_read_in_one_way()
    ensures some { (row : List (List ℕ)) → (outcome : Result EntryRow RefusalKind) × ReadsEntry row outcome }
    ensures one { (row : List (List ℕ)) (first second : Result EntryRow RefusalKind)
        → ReadsEntry row first → ReadsEntry row second → first ≡ second }
{}

/// What a row of a batch is read as has its numbers in range, dates as given ones are, and 1 to 100 mentions.
pub fn what_a_row_of_a_batch_is_read_as_is_sound()
    ensures { (row : List (List ℕ)) (entry : EntryRow) → ReadsEntry row (Ok entry) → IsSoundEntry entry }
{}

/// The fields of a register entry are read as that entry, where its numbers are in range, its dates are as given ones
/// are, and its mentions are 1 to 100.
pub fn the_fields_of_an_entry_are_read_as_it()
    ensures { (entry : EntryRow) → IsSoundEntry entry → ReadsEntry (entry_fields entry) (Ok entry) }
{}

/// The bytes of a command of one row, whatever stands after them, are read by the default reader of `csv` as its row.
pub fn the_bytes_of_a_command_are_its_row()
    ensures { (row : RowCommand) (rest : List ℕ)
        → next_record default_config state.StartRecord [] [] (bytes_of (command.Row row) ++ rest)
        ≡ Some (row_of row, state.StartRecord, rest) }
{}

/// Rows, batches of entries and imports that are not the same have other bytes, where a row begins with the word of a
/// verb, the source of a batch is a number of 32 bits, and each row of a batch has a field.
pub fn two_wordings_have_other_bytes()
    ensures { (first second : Wording) → IsSoundWording first → IsSoundWording second → written first ≡ written second
        → first ≡ second }
{}

/// No two commands have the same bytes, where their numbers are in range, their dates are as given ones are, and the
/// nodes of an import are a forest. Two imports whose forests differ only in the numbers of their lines are one.
pub fn two_commands_have_other_bytes()
    ensures { (first second : Command) → IsSound first → IsSound second → bytes_of first ≡ bytes_of second
        → IsOneCommand first second }
{}
