//! The character that parts the cells of a sheet.

ghost use Rattle.std.specs.Prelude.{◌≡◌, MatchOption, None, Some, false};
ghost use Rattle.table_pages.specs.Separators as separators;

/// The separator of lines, and what follows the row that names it: all, where no row does.
pub(crate) fn separator(lines: &[u8]) -> (u8, &[u8])
    ensures separator { result.0 ≡ (separators.separated lines.now).0 }
    ensures rest { result.1.now ≡ (separators.separated lines.now).1 }
{
    match lines {
        [a, b, c, d, separator, end, rest @ ..] if is_named(*a, *b, *c, *d, *separator, *end) => (
            *separator, rest,
        ),
        _ => (likeliest(lines), lines),
    }
}

/// Whether these bytes name a separator, the fifth, in a row of their own.
fn is_named(a: u8, b: u8, c: u8, d: u8, separator: u8, end: u8) -> bool
    ensures { result ≡ separators.is_named a b c d separator end }
{
    a == b's'
        && b == b'e'
        && c == b'p'
        && d == b'='
        && separator < 128
        && separator != b'\n'
        && end == b'\n'
}

/// The one of comma, semicolon and tab that the first row has most of outside quotes.
#[tactic(auto, unfolding(crate::specs::Separators::likeliest))]
fn likeliest(lines: &[u8]) -> u8
    ensures { result ≡ separators.likeliest lines.now }
{
    likelier(lines, likelier(lines, b',', b';'), b'\t')
}

/// The second of two marks where the first row has more of it, and else the first.
fn likelier(lines: &[u8], first: u8, second: u8) -> u8
    ensures { result ≡ separators.likelier lines.now first second }
{
    if count(lines, first) < count(lines, second) {
        second
    } else {
        first
    }
}

/// How often the mark stands outside quotes in the first row.
fn count(lines: &[u8], mark: u8) -> usize
    ensures { result ≡ separators.count mark false lines.now }
{
    let mut n = 0;
    let mut quoted = false;
    for byte in lines {
        if *byte == b'"' {
            quoted = !quoted;
        } else if !quoted && *byte == b'\n' {
            return n;
        } else if !quoted && *byte == mark {
            n += 1;
        }
    }
    n
}
