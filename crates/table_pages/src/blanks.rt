//! Cells without the blanks at their ends.

ghost use Rattle.std.specs.Prelude.{◌≡◌, ◌<◌, ◌++◌, ◌∷◌, [], MatchOption, length, reverse};
ghost use Rattle.table_pages.specs.Blanks as blanks;

/// Without space, tab, LF and U+00A0 at both ends.
#[tactic(auto, unfolding(crate::specs::Blanks::trimmed))]
pub(crate) fn trimmed(bytes: &[u8]) -> &[u8]
    ensures { result.now ≡ blanks.trimmed bytes.now }
{
    until_blanks(past_blanks(bytes))
}

/// Without the blanks before them.
fn past_blanks(bytes: &[u8]) -> &[u8]
    ensures { result.now ≡ blanks.past_blanks 194 160 bytes.now }
{
    let mut rest = bytes;
    'blanks: while let Some(more) = past_blank(rest) {
        rest = more;
    }
    rest
}

/// What is after a blank.
fn past_blank(bytes: &[u8]) -> Option<&[u8]>
    ensures { MatchOption result (blanks.past_blanks 194 160 bytes.now ≡ bytes.now)
        (λ more. (blanks.past_blanks 194 160 bytes.now ≡ blanks.past_blanks 194 160 more.now)
        × length more.now < length bytes.now) }
{
    match bytes {
        [first, more @ ..] if is_blank(*first) => Some(more),
        [first, second, more @ ..] if *first == 0xC2 && *second == 0xA0 => Some(more),
        _ => None,
    }
}

/// Without the blanks after them.
fn until_blanks(bytes: &[u8]) -> &[u8]
    ensures { result.now ≡ blanks.until_blanks bytes.now }
{
    let mut rest = bytes;
    'blanks: while let Some(front) = before_blank(rest) {
        rest = front;
    }
    rest
}

/// What is before a blank that ends them.
fn before_blank(bytes: &[u8]) -> Option<&[u8]>
    ensures { MatchOption result (blanks.until_blanks bytes.now ≡ bytes.now)
        (λ front. (blanks.until_blanks bytes.now ≡ blanks.until_blanks front.now)
        × length front.now < length bytes.now) }
{
    match bytes {
        [front @ .., last] if is_blank(*last) => Some(front),
        [front @ .., first, last] if *first == 0xC2 && *last == 0xA0 => Some(front),
        _ => None,
    }
}

/// A space, a tab or LF.
fn is_blank(byte: u8) -> bool
    ensures { result ≡ blanks.is_blank byte }
{
    byte == b' ' || byte == b'\t' || byte == b'\n'
}
