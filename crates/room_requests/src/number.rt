//! Numbers as texts.

ghost use Rattle.std.specs.Prelude.{◌≡◌};
ghost use Rattle.std.specs.Char.{is_ascii_digit};
ghost use Rattle.std.specs.List.{list_all};
ghost use Rattle.room_requests.specs.Pages.{number_in};

/// The number that a text is: 1 to `places` digits, of value 1 to 4,294,967,295. Takes no memory.
pub fn number_in(places: usize, text: &str) -> Option<u32>
    ensures { result ≡ number_in places text.now }
{
    if text.len() > places || !is_digits(text) {
        return None;
    }
    match text.parse::<u32>() {
        Ok(number) if number != 0 => Some(number),
        _ => None,
    }
}

/// Whether there are only digits.
fn is_digits(text: &str) -> bool
    ensures { result ≡ list_all is_ascii_digit text.now }
{
    text.as_bytes().iter().all(|b| b.is_ascii_digit())
}
