//! Laws of command lines, over the definitions that the contracts cite.

ghost use Rattle.std.specs.Prelude.{◌≡◌, [], ◌∷◌, None, Some, codes, false, pos, true};
ghost use Rattle.clap.specs.Words.{Text, subcommand_of};
ghost use Rattle.calendar_days.specs.Calendars.{day_number};
ghost use Rattle.calendar_days.specs.declared.calendar.Calendar.TheVariants.{Gregorian};
ghost use Rattle.command_line.specs.Asking.{
  IsTaken,
  day_given,
  generations_in,
  given_in,
  is_checked,
  is_given,
  is_html,
  is_plain,
  is_public,
  is_stop,
  is_table,
  is_told,
  kind_in,
  word_in,
};
ghost use Rattle.command_line.specs.Meanings.{number_of, number_up_to, number_word, order_named};
ghost use Rattle.command_line.specs.Commands.{program};
ghost use Rattle.command_line.specs.Examples.{
  batch_words,
  days_words,
  entered_table_words,
  expecting_words,
  html_words,
  import_words,
  plain_words,
  public_plain_words,
  public_words,
  referring_batch_words,
  reported_import_words,
  serve_words,
  sheet_words,
  stopping_words,
  table_words,
  told_import_words,
};
ghost use Rattle.command_line.specs.declared.tasks.OrderName.TheVariants.{DayFirst};
ghost use Rattle.command_line.specs.declared.tasks.SheetKind.TheVariants.{Pedigree};
ghost use Rattle.row_references.specs.declared.words.NumberWord.TheVariants.{Number, Reference};

/// Each command is taken where it stands by itself after the program's name, whatever that is.
pub fn each_command_is_taken()
    ensures norm { (name : Text) → IsTaken (name ∷ codes "norm" ∷ []) }
    ensures check { (name : Text) → IsTaken (name ∷ codes "check" ∷ []) }
{}

/// Rows are taken as the help of `apply` shows them, and end at the first that is refused where `--stop` is given, and
/// nowhere else; and answers are expected of them where `--expect` is given, those of the file that is shown there, and
/// else none.
pub fn rows_are_taken()
    ensures taken { (name : Text) → IsTaken (name ∷ codes "apply" ∷ codes "ashby.db" ∷ []) }
    ensures whole { (name : Text) → is_stop (subcommand_of program (name ∷ codes "apply" ∷ codes "ashby.db" ∷ []))
        ≡ false }
    ensures stop_taken { (name : Text) → IsTaken (stopping_words name) }
    ensures file { (name : Text) → word_in (subcommand_of program (stopping_words name)) (codes "FILE")
        ≡ codes "ashby.db" }
    ensures stops { (name : Text) → is_stop (subcommand_of program (stopping_words name)) ≡ true }
    ensures unexpected { (name : Text) → given_in (subcommand_of program (stopping_words name)) (codes "expect")
        ≡ None }
    ensures expecting_taken { (name : Text) → IsTaken (expecting_words name) }
    ensures answers { (name : Text) → given_in (subcommand_of program (expecting_words name)) (codes "expect")
        ≡ Some (codes "answers.csv") }
{}

/// A batch is taken as the help of `entries` shows it, and has the file, the source and the token that are shown there;
/// and the source may be given by a token, as it is shown there too.
pub fn a_batch_is_taken()
    ensures taken { (name : Text) → IsTaken (batch_words name) }
    ensures file { (name : Text) → word_in (subcommand_of program (batch_words name)) (codes "FILE")
        ≡ codes "ashby.db" }
    ensures source { (name : Text) → number_word (word_in (subcommand_of program (batch_words name)) (codes "source"))
        ≡ Some (Number 3) }
    ensures token { (name : Text) → word_in (subcommand_of program (batch_words name)) (codes "token")
        ≡ codes "page-12" }
    ensures referring_taken { (name : Text) → IsTaken (referring_batch_words name) }
    ensures referring_source { (name : Text)
        → number_word (word_in (subcommand_of program (referring_batch_words name)) (codes "source"))
        ≡ Some (Reference (codes "s1")) }
{}

/// A table that is checked is taken as the help of `entries` shows it, and has the file, the source and the order of
/// dates that are shown there.
pub fn a_checked_table_is_taken()
    ensures taken { (name : Text) → IsTaken (table_words name) }
    ensures file { (name : Text) → word_in (subcommand_of program (table_words name)) (codes "FILE")
        ≡ codes "ashby.db" }
    ensures source { (name : Text) → number_word (word_in (subcommand_of program (table_words name)) (codes "source"))
        ≡ Some (Number 3) }
    ensures table { (name : Text) → is_table (subcommand_of program (table_words name)) ≡ true }
    ensures checked { (name : Text) → is_checked (subcommand_of program (table_words name)) ≡ true }
    ensures order { (name : Text) → order_named (word_in (subcommand_of program (table_words name)) (codes "dates"))
        ≡ Some DayFirst }
{}

/// A table that is entered is taken as the help of `entries` shows it, and has the token and the order of dates that
/// are shown there.
pub fn an_entered_table_is_taken()
    ensures taken { (name : Text) → IsTaken (entered_table_words name) }
    ensures token { (name : Text) → word_in (subcommand_of program (entered_table_words name)) (codes "token")
        ≡ codes "page-12" }
    ensures table { (name : Text) → is_table (subcommand_of program (entered_table_words name)) ≡ true }
    ensures unchecked { (name : Text) → is_checked (subcommand_of program (entered_table_words name)) ≡ false }
    ensures order { (name : Text) → order_named
        (word_in (subcommand_of program (entered_table_words name)) (codes "dates")) ≡ Some DayFirst }
{}

/// An import is taken as the help of `import` shows it, and has the file and the token that are shown there; it says
/// how far it is where `--progress` is given, and nowhere else; and it has the report that is shown there where
/// `--report` is given, and else none.
pub fn an_import_is_taken()
    ensures taken { (name : Text) → IsTaken (import_words name) }
    ensures file { (name : Text) → word_in (subcommand_of program (import_words name)) (codes "FILE")
        ≡ codes "ashby.db" }
    ensures token { (name : Text) → word_in (subcommand_of program (import_words name)) (codes "token")
        ≡ codes "first-file" }
    ensures untold { (name : Text) → is_told (subcommand_of program (import_words name)) ≡ false }
    ensures told_taken { (name : Text) → IsTaken (told_import_words name) }
    ensures told { (name : Text) → is_told (subcommand_of program (told_import_words name)) ≡ true }
    ensures unreported { (name : Text) → given_in (subcommand_of program (import_words name)) (codes "report") ≡ None }
    ensures reported_taken { (name : Text) → IsTaken (reported_import_words name) }
    ensures reported_file { (name : Text)
        → word_in (subcommand_of program (reported_import_words name)) (codes "FILE") ≡ codes "ashby.db" }
    ensures report { (name : Text) → given_in (subcommand_of program (reported_import_words name)) (codes "report")
        ≡ Some (codes "first-file.txt") }
{}

/// An export for the public is taken as the help of `export` shows it, and is one for the public, and no plain one.
pub fn a_public_export_is_taken()
    ensures taken { (name : Text) → IsTaken (public_words name) }
    ensures public { (name : Text) → is_public (subcommand_of program (public_words name)) ≡ true }
    ensures plain { (name : Text) → is_plain (subcommand_of program (public_words name)) ≡ false }
{}

/// A plain export is taken as the help of `export` shows it, and is a plain one: of the whole archive, or for the
/// public where `--public` is given too.
pub fn a_plain_export_is_taken()
    ensures taken { (name : Text) → IsTaken (plain_words name) }
    ensures plain { (name : Text) → is_plain (subcommand_of program (plain_words name)) ≡ true }
    ensures whole { (name : Text) → is_public (subcommand_of program (plain_words name)) ≡ false }
    ensures public_taken { (name : Text) → IsTaken (public_plain_words name) }
    ensures public_plain { (name : Text) → is_plain (subcommand_of program (public_plain_words name)) ≡ true }
    ensures public { (name : Text) → is_public (subcommand_of program (public_plain_words name)) ≡ true }
{}

/// A sheet is taken as the help of `sheet` shows it, and is the pedigree of 5 generations of the person 17.
pub fn a_sheet_is_taken()
    ensures taken { (name : Text) → IsTaken (sheet_words name) }
    ensures kind { (name : Text) → kind_in (subcommand_of program (sheet_words name)) ≡ Some Pedigree }
    ensures number { (name : Text) → number_of (word_in (subcommand_of program (sheet_words name)) (codes "NO")) ≡ 17 }
    ensures generations { (name : Text) → generations_in (subcommand_of program (sheet_words name)) ≡ 5 }
{}

/// A reading room is taken as the help of `serve` shows it, and is at that port for so many visitors.
pub fn a_room_is_taken()
    ensures taken { (name : Text) → IsTaken (serve_words name) }
    ensures port { (name : Text)
        → number_up_to 65535 (word_in (subcommand_of program (serve_words name)) (codes "port")) ≡ 8080 }
    ensures count { (name : Text) → number_of (word_in (subcommand_of program (serve_words name)) (codes "count"))
        ≡ 1000 }
{}

/// The same with pages of HTML.
pub fn a_room_of_html_is_taken()
    ensures taken { (name : Text) → IsTaken (html_words name) }
    ensures html { (name : Text) → is_html (subcommand_of program (html_words name)) ≡ true }
{}

/// Days are taken as the help of `days` shows them, and are those from one to the other, with words.
pub fn some_days_are_taken()
    ensures taken { (name : Text) → IsTaken (days_words name) }
    ensures first { (name : Text) → day_given (subcommand_of program (days_words name)) (codes "from") ≡ Some
        (day_number Gregorian (pos 1799) 12 1) }
    ensures words { (name : Text) → is_given (subcommand_of program (days_words name)) (codes "words") ≡ true }
{}
