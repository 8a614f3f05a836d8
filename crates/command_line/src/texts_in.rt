//! The help of the commands that make an archive and enter something.

pub(crate) const INIT_ABOUT: &str = "Make a new archive for a family history society";

pub(crate) const INIT_EXAMPLE: &str = "\
FILE is made. Where it is there already and something was made in it, that stays
as it is, and the refusal is 82; a log may be made beside it.

Example:
  parish init ashby.db --society 'Ashby Family History Society'";

pub(crate) const APPLY_ABOUT: &str = "Do the requests of the rows of standard input";

pub(crate) const APPLY_EXAMPLE: &str = "\
Each row is a request: token, verb and fields, as CSV without a header row. Its
answer is a row of standard output, written once the request is kept in FILE:
token,ok,first,count or token,refused,no.,Name. A refused row changes nothing,
and the next is done. Who sends a row again under its token gets the same
answer, and nothing is done twice.

With --stop no row is done after one that is refused: the status is 1 after its
answer. Use it for rows whose numbers count on those that earlier rows get.

With --expect no row is done whose answer would be another than in ANSWERS, rows
as apply writes them: the k-th row of a token is compared with the k-th answer
of that token, and a row without one is done. Where they differ, standard error
gets parish: 96 NotAsExpected at row <n>, and the status is 1. Use it to send
rows again to an older copy of FILE.

Of each refused row standard error tells which one it is, counted from 1, and
what is wrong: row <n>: <no.> <Name>: field <place> (<name>): <what>. The place
of the token is 1, that of the verb 2.

A row names records and slips by their numbers, or by @ and the token of the row
that made one: event,@t1,DEAT,,1950, is of the person of t1.

Verbs and their fields; one with ? may be empty:
  person,name,sex?                 name,person,name
  sex,person,sex                   family,husband?,wife?
  child,family,person              participant,event,person,role
  event,owner,tag,value?,date?,place?
  amend,event,value?,date?,place?  (what is empty stays)
  place,name,parent?               repo,name
  source,title,author?,publisher?,repository?,call number?
  citation,owner,source,page?,quality?
  entry,source,kind,page?,item,date?,place?,text?,role,name[,role,name..]
  link,entry,mention,person,reason
  unlink,entry,mention
  merge,person that stays,person that is gone
  undo,slip                        remove,number
  partner,family,role,person       (the role is husband or wife)
  unpartner,family,person          unchild,family,person
  unparticipant,event,participant
  correct,number,field,value?      (field: as docs/FORMATS.md has them)

Refusals of a row:
  50 NoSuch              a number or an @ token names nothing
  51 WrongKind           or a record of another kind
  52 TokenReused         the token is kept with another request
  53 StillNamed          another record names the one to remove
  54 SamePerson          one person given twice
  55 MergeWithinFamily   both are in one family, and not both its children
  56 ChangedSince        what the merge changed was changed since
  57 AlreadyUndone       the slip was undone
  58 BadText             a field is no text, or not one that may stand there
  59 AlreadyInFamily     the person is in the family
  60 DuplicateEntry      the source has that kind, page and item
  61 NoSuchMention       the entry has not so many mentions
  62 NotOfKind           a tag that is not of the owner, a role not of the kind
  63 Full                no number is left
  64 NoSuchField         the record has not the field, or its list is shorter
  65 NotMember           the person is not partner, or not child, there
  66 StillCarried        a line that is carried would be read as a field
  90 BadRow              a field that is not UTF-8 or not of its type
  91 UnknownVerb         no such verb
  92 FieldCount          another number of fields than the verb has
  93 BadToken            not 1 to 64 characters from `!` to `~`
  1 OutOfMemory, 40 BadStored

docs/REFUSALS.md says when each comes and what to do, docs/FORMATS.md what each
field may be; both lie beside the source of parish.

Examples:
  parish apply ashby.db < rows.csv > answers.csv
  parish apply ashby.db --stop < rows.csv > answers.csv
  parish apply copy.db --expect answers.csv < rows.csv > again.csv";

pub(crate) const ENTRIES_ABOUT: &str =
    "Enter the rows of standard input as a batch of register entries";

pub(crate) const ENTRIES_EXAMPLE: &str = "\
Each row is an entry of the register that is source N, as CSV without a header
row: kind, page, item, date, place, text, and then role and name of each mention.
N may be @TOKEN, the first number of the answer that is kept for TOKEN.
All rows are entered or none: at a refusal nothing is, and it names the row. It
prints `made <count> entries, first <first>` once the batch is kept in FILE. Who
sends the same rows again under T gets the same line, and nothing is done twice.

Fields of a row; one with ? may be empty:
  kind,page?,item,date?,place?,text?,role,name[,role,name..]
The kind is BAPTISM, MARRIAGE or BURIAL, the item 1 to 999999, the place the
number of a place, or @TOKEN as the source; 1 to 100 mentions, each a role of the
kind and a name:
  BAPTISM   child, father, mother, godparent
  MARRIAGE  groom, bride, father-of-groom, father-of-bride, witness
  BURIAL    buried, spouse, father, mother

Refusals, those of a row with `at row <n>`, counted from 1:
  50 NoSuch, 51 WrongKind   the source or the row's place is none
  52 TokenReused            T is kept with another batch or request
  58 BadText                a field is no text, or the place has no name
  60 DuplicateEntry         the source has that kind, page and item
  62 NotOfKind              a role that is not of the kind
  63 Full                   no number is left
  90 BadRow                 a field that is not UTF-8 or not of its type
  92 FieldCount             no mention, over 100, or a role without a name
  93 BadToken               T is none
docs/REFUSALS.md, beside the source of parish, says when each comes and what to
do; so it does of the others: 1, 40, 80, 82, 83, 94 and 95.

With --table the input is a table as a spreadsheet writes it, with a header row.
Columns are kind, page, item, date, place, text and roles, like godparent or
godparent 2. A place may be a path, as `Ashby, Kent`. Rows have the numbers that
the sheet shows, and 97 is a column that is not known, 98 one that is missing.
Standard error names the cell that is refused, and says how many dates have no
days but words. With --make-places the places are made that paths name and FILE
does not have, the larger first, if the table would be entered then; standard
error names each: `place 7 is new: Ashby, Kent`. docs/FORMATS.md says what a
cell may be. The table is in UTF-8, in UTF-16 with its mark, or in the SET that
is given: utf-8, utf-16le, utf-16be, 1252 (Windows), 437 or 850 (DOS), macintosh
or ansel.

With --table and --check nothing is entered, and no token is needed: standard
output gets a line for all that would be refused or is doubtful,
row <n>: <no.> <Name>: <column>: <cell>, and at the end
`<n> rows, <m> wrong, <k> doubtful`; the status is 1 where a row is wrong.

Examples:
  parish entries ashby.db --source 3 --token page-12 < page12.csv
  parish entries ashby.db --source @s1 --token page-12 < page12.csv
  parish entries ashby.db --table --check --source 3 --dates dmy < page12.csv
  parish entries ashby.db --table --source 3 --dates dmy --token page-12 < page12.csv";

pub(crate) const IMPORT_ABOUT: &str = "Take the GEDCOM file of standard input into the archive";

pub(crate) const IMPORT_EXAMPLE: &str = "\
The file is taken in whole or not at all: at a refusal nothing is. It prints
`imported <count> records, first <first>` once all is kept in FILE, then a line
`line <n>: <word>` for each line of the file that was not taken as it stood.
Who sends the same file again under T gets the same, and nothing is done twice.

With --progress standard error tells how far it is: at most once a second, and at
the end, a line `staged <n> of <m> rows`, m being the rows that FILE gets.

With --report a new file REPORT gets the lines of the header, which FILE does
not keep, as `line <n>: head: <line>`, then the number of each record that has a
cross reference, as `line <n>: @I44@ is person 12`, and then the same lines
`line <n>: <word>`. If REPORT is there already or cannot be made, it is 80, and
nothing is taken in. If the file was taken in under T before, no REPORT is left,
and standard error says so.

Words of the report:
  dangling       its pointer names no record of the file: the line is dropped
  one-sided      a family and a person do not both name the other: dropped
  doubled        the same is said by a line before it: dropped
  value dropped  the record stands, the value of its first line does not

Refusals, with `at line <n>` where a line of the file is to blame:
  10 to 15, 20 to 30  the file is no GEDCOM file that is read: try `check`
  52 TokenReused      T is kept with another file or request
  60 DuplicateEntry   two register entries of one source, kind, page and item
  63 Full             no number is left
  93 BadToken         T is none
docs/REFUSALS.md, beside the source of parish, says when each comes and what to
do; so it does of the others: 1, 40, 80, 82, 83, 94 and 95. docs/KEEPING.md says
how to move in from another program.

Examples:
  parish import ashby.db --token first-file < family.ged
  parish import ashby.db --token first-file --progress < family.ged
  parish import ashby.db --token first-file --report first-file.txt < family.ged";
