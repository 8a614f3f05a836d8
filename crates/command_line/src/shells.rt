//! What bash and zsh read to complete words after `parish`.

ghost use Rattle.std.specs.Prelude.{◌≡◌, is_some};
ghost use Rattle.command_line.specs.Meanings.{is_shell};

/// What the shell of this name reads. `None`: it is of none.
pub(crate) fn completions_of(word: &str) -> Option<&'static str>
    ensures { is_some result ≡ is_shell word.now }
{
    match word {
        "bash" => Some(BASH),
        "zsh" => Some(ZSH),
        _ => None,
    }
}

// generated: completions
const BASH: &str = "\
# What bash offers after `parish`.

_parish() {
    local word=${COMP_WORDS[COMP_CWORD]} before=${COMP_WORDS[COMP_CWORD - 1]} command=${COMP_WORDS[1]}
    local offered= files=
    if ((COMP_CWORD == 1)); then
        offered='norm check convert init apply entries import export sheet serve audit days list find show history \
review completions --help --version'
    else
        case $command:$COMP_CWORD:$before in
            init:2:*) files=1 ;;
            apply:2:*) files=1 ;;
            entries:2:*) files=1 ;;
            import:2:*) files=1 ;;
            export:2:*) files=1 ;;
            sheet:2:*) files=1 ;;
            sheet:3:*) offered='person family pedigree register' ;;
            serve:2:*) files=1 ;;
            audit:2:*) files=1 ;;
            days:2:*) files=1 ;;
            list:2:*) files=1 ;;
            list:3:*) offered='persons families events places repositories sources citations entries others slips' ;;
            find:2:*) files=1 ;;
            show:2:*) files=1 ;;
            history:2:*) files=1 ;;
            review:2:*) files=1 ;;
            completions:2:*) offered='bash zsh' ;;
        esac
        case $command:$before in
            norm:*) [[ $word != -* ]] || offered='--help' files= ;;
            check:*) [[ $word != -* ]] || offered='--all --help' files= ;;
            convert:--from) offered='utf-8 utf-16le utf-16be 1252 437 850 macintosh ansel' files= ;;
            convert:*) [[ $word != -* ]] || offered='--from --help' files= ;;
            init:--society) offered='' files= ;;
            init:*) [[ $word != -* ]] || offered='--society --help' files= ;;
            apply:--expect) offered='' files=1 ;;
            apply:*) [[ $word != -* ]] || offered='--stop --expect --help' files= ;;
            entries:--source) offered='' files= ;;
            entries:--token) offered='' files= ;;
            entries:--dates) offered='' files= ;;
            entries:--from) offered='utf-8 utf-16le utf-16be 1252 437 850 macintosh ansel' files= ;;
            entries:*) [[ $word != -* ]] || offered='--source --token --table --check --make-places --dates --from \
--help' files= ;;
            import:--token) offered='' files= ;;
            import:--report) offered='' files=1 ;;
            import:*) [[ $word != -* ]] || offered='--token --progress --report --help' files= ;;
            export:--today) offered='' files= ;;
            export:*) [[ $word != -* ]] || offered='--public --today --plain --help' files= ;;
            sheet:--today) offered='' files= ;;
            sheet:--generations) offered='' files= ;;
            sheet:*) [[ $word != -* ]] || offered='--today --generations --help' files= ;;
            serve:--port) offered='' files= ;;
            serve:--count) offered='' files= ;;
            serve:--today) offered='' files= ;;
            serve:--host) offered='' files= ;;
            serve:*) [[ $word != -* ]] || offered='--port --count --today --html --host --help' files= ;;
            audit:*) [[ $word != -* ]] || offered='--help' files= ;;
            days:--from) offered='' files= ;;
            days:--to) offered='' files= ;;
            days:*) [[ $word != -* ]] || offered='--from --to --words --help' files= ;;
            list:--source) offered='' files= ;;
            list:--after) offered='' files= ;;
            list:--limit) offered='' files= ;;
            list:*) [[ $word != -* ]] || offered='--source --after --limit --csv --help' files= ;;
            find:--kind) offered='persons families events places repositories sources citations entries others' files= \
;;
            find:--limit) offered='' files= ;;
            find:*) [[ $word != -* ]] || offered='--kind --limit --csv --help' files= ;;
            show:*) [[ $word != -* ]] || offered='--help' files= ;;
            history:*) [[ $word != -* ]] || offered='--help' files= ;;
            review:*) [[ $word != -* ]] || offered='--csv --help' files= ;;
            completions:*) [[ $word != -* ]] || offered='--help' files= ;;
        esac
    fi
    mapfile -t COMPREPLY < <(compgen ${files:+-f} -W \"$offered\" -- \"$word\")
}
complete -o filenames -F _parish parish
";

const ZSH: &str = "\
#compdef parish
# What zsh offers after `parish`.

local -a commands=(
    'norm:Write the GEDCOM file of standard input in canonical form'
    'check:Check the GEDCOM file of standard input and count its records'
    'convert:Write the GEDCOM file of standard input in UTF-8'
    'init:Make a new archive for a family history society'
    'apply:Do the requests of the rows of standard input'
    'entries:Enter the rows of standard input as a batch of register entries'
    'import:Take the GEDCOM file of standard input into the archive'
    'export:Write the archive as a GEDCOM 5.5.1 file'
    'sheet:Print a sheet of a person, a family, a pedigree or a register'
    'serve:Show the archive to the browsers of this machine'
    'audit:Check that the archive is sound'
    'days:Find the events and entries of some days'
    'list:List the records of a kind, or the slips of merges'
    'find:Find the records with a name that has some words'
    'show:Show records whole'
    'history:Show what a record was before'
    'review:List what is doubtful'
    'completions:Print what a shell reads to complete words after parish'
)

if ((CURRENT == 2)); then
    _describe command commands
    _arguments '--help[Print help]' '--version[Print the version]'
    return
fi
local command=${words[2]}
shift words
((CURRENT -= 1))
case $command in
    norm)
        _arguments '--help[Print help]'
        ;;
    check)
        _arguments '--help[Print help]' \\
            '--all[Print each faulty line, up to 1000 of them]'
        ;;
    convert)
        _arguments '--help[Print help]' \\
            '--from[The character set of the file, one of those below]:SET:(utf-8 utf-16le utf-16be 1252 437 850 \
macintosh ansel)'
        ;;
    init)
        _arguments '--help[Print help]' \\
            '1:The file of the archive:_files' \\
            '--society[The name of the society]:NAME:'
        ;;
    apply)
        _arguments '--help[Print help]' \\
            '1:The file of the archive:_files' \\
            '--stop[End after the answer of the first row that is refused]' \\
            '--expect[End before the first row that would be answered otherwise than in this file]:ANSWERS:_files'
        ;;
    entries)
        _arguments '--help[Print help]' \\
            '1:The file of the archive:_files' \\
            '--source[The number of the register'\\''s source, 1 to 4294967295, or @TOKEN]:N:' \\
            '--token[The token of the request\\: 1 to 64 characters from `!` to `~`]:T:' \\
            '--table[The input is a table as a spreadsheet writes it, with a header row]' \\
            '--check[Look a table over, and enter nothing]' \\
            '--make-places[Make the places that paths of a table name and FILE does not have]' \\
            '--dates[The order of dates like 5/6/1761 in a table\\: dmy or mdy]:ORDER:' \\
            '--from[The character set of the file, one of those below]:SET:(utf-8 utf-16le utf-16be 1252 437 850 \
macintosh ansel)'
        ;;
    import)
        _arguments '--help[Print help]' \\
            '1:The file of the archive:_files' \\
            '--token[The token of the request\\: 1 to 64 characters from `!` to `~`]:T:' \\
            '--progress[Tell on standard error how many rows are written]' \\
            '--report[A new file for what became of the header, the records and the lines]:REPORT:_files'
        ;;
    export)
        _arguments '--help[Print help]' \\
            '1:The file of the archive:_files' \\
            '--public[Only what may be shown on the day of --today]' \\
            '--today[The day of which it is judged what may be shown]:YYYY-MM-DD:' \\
            '--plain[For other programs\\: without tags of our own]'
        ;;
    sheet)
        _arguments '--help[Print help]' \\
            '1:The file of the archive:_files' \\
            '2:The kind of sheet\\: person, family, pedigree or register:(person family pedigree register)' \\
            '3:The number of the record, 1 to 4294967295:' \\
            '--today[The day of which it is judged what may be shown]:YYYY-MM-DD:' \\
            '--generations[The generations of a pedigree, 1 to 12 \\[default\\: 4\\]]:G:'
        ;;
    serve)
        _arguments '--help[Print help]' \\
            '1:The file of the archive:_files' \\
            '--port[The port, 1 to 65535]:P:' \\
            '--count[How many visitors are answered, 0 to 1000000]:N:' \\
            '--today[The day of which it is judged what may be shown]:YYYY-MM-DD:' \\
            '--html[Give pages of HTML, not of text]' \\
            '--host[A name that the room may be asked for, as behind a proxy; only with --html]:NAME:'
        ;;
    audit)
        _arguments '--help[Print help]' \\
            '1:The file of the archive:_files'
        ;;
    days)
        _arguments '--help[Print help]' \\
            '1:The file of the archive:_files' \\
            '--from[The first of the days]:YYYY-MM-DD:' \\
            '--to[The last of the days]:YYYY-MM-DD:' \\
            '--words[Say after each number what it is, its date and its place]'
        ;;
    list)
        _arguments '--help[Print help]' \\
            '1:The file of the archive:_files' \\
            '2:The kind of the records, one of those below:(persons families events places repositories sources \
citations entries others slips)' \\
            '--source[Only the entries of the source of this number, 1 to 4294967295, or @TOKEN]:N:' \\
            '--after[Only records with a greater number than this, 0 to 4294967295]:NUMBER:' \\
            '--limit[So many records at most, 1 to 4294967295 \\[default\\: all\\]]:N:' \\
            '--csv[Print rows of CSV below a header in place of lines]'
        ;;
    find)
        _arguments '--help[Print help]' \\
            '1:The file of the archive:_files' \\
            '*:The words, or beginnings of them, that a name has to have:' \\
            '--kind[The kind of the records, one of those below]:KIND:(persons families events places repositories \
sources citations entries others)' \\
            '--limit[So many records at most, 1 to 4294967295 \\[default\\: 1000\\]]:N:' \\
            '--csv[Print rows of CSV below a header in place of lines]'
        ;;
    show)
        _arguments '--help[Print help]' \\
            '1:The file of the archive:_files' \\
            '*:The numbers of the records, 1 to 4294967295, or @TOKEN:'
        ;;
    history)
        _arguments '--help[Print help]' \\
            '1:The file of the archive:_files' \\
            '2:The number of the record, 1 to 4294967295:'
        ;;
    review)
        _arguments '--help[Print help]' \\
            '1:The file of the archive:_files' \\
            '--csv[Print rows of CSV below a header in place of lines]'
        ;;
    completions)
        _arguments '--help[Print help]' \\
            '1:The shell\\: bash or zsh:(bash zsh)'
        ;;
esac
";
// end of completions
