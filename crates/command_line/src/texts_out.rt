//! The help of the commands that read files, and of those that give out what an archive has.

pub(crate) const NORM_ABOUT: &str = "Write the GEDCOM file of standard input in canonical form";

pub(crate) const NORM_EXAMPLE: &str = "\
It is written to standard output once the whole input has been read without a
fault; at a fault nothing is written.

Example:
  parish norm < family.ged > canonical.ged";

pub(crate) const CHECK_ABOUT: &str =
    "Check the GEDCOM file of standard input and count its records";

pub(crate) const CHECK_EXAMPLE: &str = "\
It prints `ok: <n> records` once the whole input has been read without a fault.
The header and the trailer are no records.

With --all a file with faults is read on to its end: for each faulty line its
first fault is printed, `line <n>: <no.> <Name>: <line>`, up to 1000 of them, then
`and <n> more`. Standard error has the first, as without --all.

Examples:
  parish check < family.ged
  parish check --all < family.ged > faults.txt";

pub(crate) const CONVERT_ABOUT: &str = "Write the GEDCOM file of standard input in UTF-8";

pub(crate) const CONVERT_EXAMPLE: &str = "\
The lines of the file are written to standard output in UTF-8, with CHAR UTF-8 in
the header. Its character set is that of a mark of UTF-16 at its beginning, else
that of --from, else UTF-8 where all of it is UTF-8, else the one that its CHAR
names. Nothing is written before the whole file was read. There is no archive.

SET is utf-8, utf-16le, utf-16be, 1252 (Windows), 437 or 850 (DOS), macintosh or
ansel.

Standard error has the set, what said so, and some lines as they were read: look
at these, since no rule knows a wrong CHAR.

Refusals:
  29 Charset       the set is not known: say it with --from
  27 FileTooLarge  over 134217728 bytes read, or 67108864 to be written
  94 ReadFailed    standard input could not be read
  95 WriteFailed   standard output could not be written
  1

Examples:
  parish convert < family.ged > family-utf8.ged
  parish convert --from 850 < family.ged > family-utf8.ged";

pub(crate) const EXPORT_ABOUT: &str = "Write the archive as a GEDCOM 5.5.1 file";

pub(crate) const EXPORT_EXAMPLE: &str = "\
It is written to standard output in UTF-8, record by record, with all that the
archive holds, the living too. The archive is not changed. At a refusal a
beginning of the file may have been written.

With --public nothing is written but what may be shown on the day of --today: of
who is living then only the number, the name `Living` and the places in
families. docs/LIVING.md, beside the source of parish, has the rules.

With --plain the file is for other programs: places only by their names, who took
part in an event as ASSO and notes, register entries as citations and notes of
their source. It is not for `import`, since no place or entry comes back.

Refusals:
  40 BadStored       what is stored is no record: somebody else wrote FILE
  70 ExportTooLarge  the file would have more than 67108864 bytes; with --plain
                     also a note more than 1048576
  82 NotAnArchive    there is no FILE, or it is no archive
  95 WriteFailed     standard output could not be written
  1, 80, 83
docs/REFUSALS.md, beside the source of parish, says what to do about each, and
docs/FORMATS.md what is written of each record.

Examples:
  parish export ashby.db > ashby.ged
  parish export ashby.db --public --today 2024-01-01 > public.ged
  parish export ashby.db --plain > plain.ged
  parish export ashby.db --plain --public --today 2024-01-01 > public.ged";

pub(crate) const SHEET_ABOUT: &str =
    "Print a sheet of a person, a family, a pedigree or a register";

pub(crate) const SHEET_EXAMPLE: &str = "\
NO is the number of the person, of the family, of the person whose ancestors the
pedigree tells, or of the register's source. The sheet has what may be shown on
the day of --today, as docs/LIVING.md tells, and is written to standard output.
The archive is not changed.

Refusals:
  50 NoSuch        NO names nothing that is shown
  51 WrongKind     or a record of another kind
  40 BadStored     what is stored is no record: somebody else wrote FILE
  82 NotAnArchive  there is no FILE, or it is no archive
  95 WriteFailed   standard output could not be written
  1, 80, 83
docs/REFUSALS.md, beside the source of parish, says what to do about each, and
docs/FORMATS.md what the lines of a sheet are.

Example:
  parish sheet ashby.db pedigree 17 --today 2024-01-01 --generations 5";

pub(crate) const SERVE_ABOUT: &str = "Show the archive to the browsers of this machine";

pub(crate) const SERVE_EXAMPLE: &str = "\
The archive is read once, and then FILE is not used. What may be shown of it on
the day of --today, as docs/LIVING.md tells, is given to each visitor who asks: as
text, or with --html as pages of HTML with links and a search.
`listening on 127.0.0.1:<port>` is printed, and N visitors are answered, up to 256
at once; then it ends. With --html and an N of 0 it does not. The archive is not
changed.

Refusals:
  94 ReadFailed    nobody can be heard at the port, or no more
  95 WriteFailed   standard output could not be written
  40 BadStored     what is stored is no record: somebody else wrote FILE
  82 NotAnArchive  there is no FILE, or it is no archive
  1, 80, 83
docs/REFUSALS.md, beside the source of parish, says what to do about each.

Example:
  parish serve ashby.db --port 8080 --count 1000 --today 2024-01-01
  parish serve ashby.db --port 8080 --count 1000 --today 2024-01-01 --html";

pub(crate) const AUDIT_ABOUT: &str = "Check that the archive is sound";

pub(crate) const AUDIT_EXAMPLE: &str = "\
It prints `sound: <n> records` where all that is stored keeps the rules of an
archive. Where it does not, standard error tells the first record that breaks a
rule, and which, before the refusal. The archive is not changed.

Refusals:
  40 BadStored     a rule is broken, or what is stored is no record
  82 NotAnArchive  there is no FILE, or it is no archive
  95 WriteFailed   standard output could not be written
  1, 80, 83
docs/REFUSALS.md, beside the source of parish, says what to do about each.

Example:
  parish audit ashby.db";

pub(crate) const DAYS_ABOUT: &str = "Find the events and entries of some days";

pub(crate) const DAYS_EXAMPLE: &str = "\
The numbers of the events and register entries whose date may mean a day from
--from to --to are printed, one a line, ascending. A phrase, or a date that is
spelt in no form, is never found. With --words each line goes on with the kind of
the event or entry, its date and its place, with two spaces between them. The
living are not hidden: the archive is not changed, and nothing is for visitors.

Refusals:
  87 DaysReversed  the first day is after the last
  40 BadStored     what is stored is no record: somebody else wrote FILE
  82 NotAnArchive  there is no FILE, or it is no archive
  95 WriteFailed   standard output could not be written
  1, 80, 83
docs/REFUSALS.md, beside the source of parish, says what to do about each.

Example:
  parish days ashby.db --from 1799-12-01 --to 1800-02-28 --words";
