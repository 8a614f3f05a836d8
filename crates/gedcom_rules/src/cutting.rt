//! Bytes cut at line ends.

ghost use Rattle.std.specs.Prelude.{◌≡◌, ◌<◌, ◌∷◌, [], not, MatchOption, length};
ghost use Rattle.std.specs.List.{prefix_len};
ghost use Rattle.gedcom_line.specs.Words.{is_end as end_test};
ghost use Rattle.gedcom_line.specs.Line.{IsPiece};
ghost use Rattle.gedcom_rules.specs.Pieces.{pieces, IsCut};

/// Whether the byte ends a line.
pub(crate) fn is_end(byte: u8) -> bool
    ensures { result ≡ end_test byte }
{
    byte == b'\n' || byte == b'\r'
}

/// How many bytes stand before the first terminator.
fn line_len(bytes: &[u8]) -> usize
    ensures { result ≡ prefix_len (λ b. not (end_test b)) bytes.now }
{
    bytes.iter().take_while(|b| !is_end(**b)).count()
}

/// The first piece that a terminator ends, and what follows the terminator.
pub fn cut(bytes: &[u8]) -> Option<(&[u8], &[u8])>
    ensures ended { MatchOption result ((pieces bytes.now).ended ≡ [])
        (λ x. (pieces bytes.now).ended ≡ x.0.now ∷ (pieces x.1.now).ended) }
    ensures open_ { MatchOption result ((pieces bytes.now).open_ ≡ bytes.now)
        (λ x. (pieces bytes.now).open_ ≡ (pieces x.1.now).open_) }
    ensures piece { MatchOption result (IsPiece bytes.now) (λ x. IsPiece x.0.now) }
    ensures parts { MatchOption result (Unit {0}) (λ x. IsCut bytes.now x.0.now x.1.now) }
    ensures shorter { MatchOption result (Unit {0}) (λ x. length x.1.now < length bytes.now) }
{
    let at = line_len(bytes);
    if at < bytes.len() {
        Some((&bytes[..at], &bytes[at + 1..]))
    } else {
        None
    }
}
