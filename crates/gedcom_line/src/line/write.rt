//! Writing a line.

ghost use Rattle.std.specs.Prelude.{◌≡◌, ◌+◌, ◌<◌, ◌++◌, ◌∷◌, [], OnOk, OnErr, string_bytes, option_map};
ghost use Rattle.std.specs.Fmt.{decimal};
ghost use Rattle.gedcom_line.specs.Spelling.{Begun, xref_text, raw_text, spelling};

use std::alloc::AllocError;

/// Appends a digit.
fn push_digit(out: &mut String, digit: u8) -> Result<(), AllocError>
    requires { digit < 10 }
    ensures ok { OnOk result (string_bytes out.new ≡ string_bytes out.old ++ (48 + digit) ∷ []) }
    ensures err { OnErr result (string_bytes out.new ≡ string_bytes out.old) }
{
    out.push(char::from(b'0' + digit))
}

/// Appends the digits of a level.
fn push_level(out: &mut String, level: u8) -> Result<(), AllocError>
    ensures ok { OnOk result (string_bytes out.new ≡ string_bytes out.old ++ decimal level) }
    ensures err { OnErr result (Begun (string_bytes out.old) (string_bytes out.new) (decimal level)) }
{
    if level < 10 {
        return push_digit(out, level);
    }
    push_level(out, level / 10)?;
    push_digit(out, level % 10)
}

/// Appends a cross reference and a space, where there is one.
fn push_xref(out: &mut String, xref: Option<&str>) -> Result<(), AllocError>
    ensures ok { OnOk result (string_bytes out.new ≡ string_bytes out.old ++ xref_text
        (option_map (λ s. s.now) xref.entry)) }
    ensures err { OnErr result
        (Begun (string_bytes out.old) (string_bytes out.new) (xref_text (option_map (λ s. s.now) xref.entry))) }
{
    match xref {
        Some(name) => {
            out.push_str(name)?;
            out.push_str(" ")?;
            Ok(())
        }
        None => Ok(()),
    }
}

/// Appends a space and the value, where it is not empty.
fn push_raw(out: &mut String, raw: &str) -> Result<(), AllocError>
    ensures ok { OnOk result (string_bytes out.new ≡ string_bytes out.old ++ raw_text raw.now) }
    ensures err { OnErr result (Begun (string_bytes out.old) (string_bytes out.new) (raw_text raw.now)) }
{
    if raw.is_empty() {
        return Ok(());
    }
    out.push_str(" ")?;
    out.push_str(raw)
}

/// Writes a line with its LF after `out`, `raw` as it stands. Where memory is refused, `out` has got a
/// beginning of the line.
#[tactic(auto, unfolding(crate::specs::Spelling::spelling))]
pub fn write_line(
    out: &mut String,
    level: u8,
    xref: Option<&str>,
    tag: &str,
    raw: &str,
) -> Result<(), AllocError>
    ensures ok { OnOk result
        (string_bytes out.new ≡ string_bytes out.old
        ++ (spelling (record { level = level; xref = option_map (λ s. s.now) xref.entry; tag = tag.now; raw = raw.now })
        ++ 10 ∷ [])) }
    ensures err { OnErr result
        (Begun (string_bytes out.old) (string_bytes out.new)
        (spelling (record { level = level; xref = option_map (λ s. s.now) xref.entry; tag = tag.now; raw = raw.now })
        ++ 10 ∷ [])) }
{
    push_level(out, level)?;
    out.push_str(" ")?;
    push_xref(out, xref)?;
    out.push_str(tag)?;
    push_raw(out, raw)?;
    out.push_str("\n")
}
