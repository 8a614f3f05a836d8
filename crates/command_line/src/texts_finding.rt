//! The help of the commands that find and show records, for whoever keeps the archive.

pub(crate) const LIST_ABOUT: &str = "List the records of a kind, or the slips of merges";

pub(crate) const LIST_EXAMPLE: &str = "\
KIND is persons, families, events, places, repositories, sources, citations,
entries, others or slips. Each record is a line, by number: the number and what
tells it from others. A slip says who was merged into whom, and if that was
undone. With --source there are only the entries of that source; N is its number,
or @ and a token: the first number of the answer that is stored for that token. With
--csv there are rows for a spreadsheet: the number and the description; with
--source too the columns of a page that `entries --table` reads. A cell that would
be taken for a formula has an apostrophe before it. The living are not hidden: the
archive is not changed, and nothing is for visitors.

Refusals:
  50 NoSuch        an @ token names nothing
  40 BadStored     what is stored is no record: somebody else wrote FILE
  82 NotAnArchive  there is no FILE, or it is no archive
  95 WriteFailed   standard output could not be written
  1, 80, 83
docs/REFUSALS.md, beside the source of parish, says what to do about each.

Examples:
  parish list ashby.db persons --after 100 --limit 50
  parish list ashby.db entries --source 3 --csv";

pub(crate) const FIND_ABOUT: &str = "Find the records with a name that has some words";

pub(crate) const FIND_EXAMPLE: &str = "\
A record is found where one of its names has all words, each at the beginning of
a word of it: names of persons, of those whom register entries mention, of places
and repositories, and titles of sources. Case, marks and how letters are composed
make no difference: muller finds Müller, neil O'Neil. A line is that of `list`,
and so are the kinds of --kind, without slips. Where records are left out, a last line says how
many: `and 37 more`. A WORD without letters and digits is refused. With --csv the
lines are rows for a spreadsheet. The living are not hidden: the archive is not
changed, and nothing is for visitors.

Refusals:
  40 BadStored     what is stored is no record: somebody else wrote FILE
  82 NotAnArchive  there is no FILE, or it is no archive
  95 WriteFailed   standard output could not be written
  1, 80, 83
docs/REFUSALS.md, beside the source of parish, says what to do about each.

Examples:
  parish find ashby.db tom lee
  parish find ashby.db ash --kind places";

pub(crate) const SHOW_ABOUT: &str = "Show records whole";

pub(crate) const SHOW_EXAMPLE: &str = "\
NO is the number of a record, or @ and a token: the first number of the answer that
is stored for that token. Each is printed with all that it has, and with what names
it, its events and citations in full. The number that a merge was answered shows
who was merged into whom, and the records that it changed as they were before. The
living are not hidden: the archive is not changed, and nothing is for visitors.

Refusals:
  50 NoSuch        a number or an @ token names nothing
  40 BadStored     what is stored is no record: somebody else wrote FILE
  82 NotAnArchive  there is no FILE, or it is no archive
  95 WriteFailed   standard output could not be written
  1, 80, 83
docs/REFUSALS.md, beside the source of parish, says what to do about each.

Examples:
  parish show ashby.db 17 21
  parish show ashby.db @page-12";

pub(crate) const HISTORY_ABOUT: &str = "Show what a record was before";

pub(crate) const HISTORY_EXAMPLE: &str = "\
The record is printed as it was before each request that overwrote or removed it,
the oldest value first: a line with the key of the value and the token of that
request, and the value as show prints it; then what it is now, or that it is
removed. Last come rows for parish apply that put back what it was before the last
of these requests, with tokens that no accepted row of an earlier history had;
below them it is said what no row puts back. Imports, merges and undos keep no
values here. The living are not hidden: the archive is not changed, and nothing is
for visitors.

Refusals:
  40 BadStored     what is stored is no record: somebody else wrote FILE
  50 NoSuch        no record has this number, and no earlier value is stored
  82 NotAnArchive  there is no FILE, or it is no archive
  95 WriteFailed   standard output could not be written
  1, 80, 83
docs/REFUSALS.md, beside the source of parish, says what to do about each.

Example:
  parish history ashby.db 17";

pub(crate) const REVIEW_ABOUT: &str = "List what is doubtful";

pub(crate) const REVIEW_EXAMPLE: &str = "\
Each doubt is a line with the number of a record and what is doubtful: first the
dates that are words only, then the persons without a name or a surname, the
families of nobody, the mentions that are not linked although one of that name on
that page is, the children older than a parent, the events before the birth or
after the burial of their person, and the register entries with two mentions of
one person. It is for the eyes: what is listed may be right, and what is wrong
may not be listed. With --csv the lines are rows for a spreadsheet. The living are
not hidden: the archive is not changed, and nothing is for visitors.

Refusals:
  40 BadStored     what is stored is no record: somebody else wrote FILE
  82 NotAnArchive  there is no FILE, or it is no archive
  95 WriteFailed   standard output could not be written
  1, 80, 83
docs/REFUSALS.md, beside the source of parish, says what to do about each.

Example:
  parish review ashby.db";

pub(crate) const COMPLETIONS_ABOUT: &str =
    "Print what a shell reads to complete words after parish";

pub(crate) const COMPLETIONS_EXAMPLE: &str = "\
SHELL is bash or zsh. The text has each command, its options, and the values of
some of them. Packages have it in place; it is for parish from a tarball or built
from its source. No archive is opened.

Refusals:
  95 WriteFailed   standard output could not be written
  1
docs/REFUSALS.md, beside the source of parish, says what to do about each.

Examples:
  parish completions bash > ~/.local/share/bash-completion/completions/parish
  parish completions zsh > ~/.zsh/functions/_parish";
