//! The hosts that a room is asked for.

ghost use Rattle.std.specs.Prelude.{◌≡◌};
ghost use Rattle.html_answers.specs.Hosts as hosts;

use html_parts::Words;
use room_requests::Head;

/// Whether a head is for this machine, or for the room by the name that it was given; each also without Host.
pub(crate) fn is_right_host(own: &Option<Words>, head: &Head) -> bool
    ensures { result ≡ hosts.is_right_host own.now head.now }
{
    head.hosts == 0 || is_local(&head.host) || is_own(own, &head.host)
}

/// Whether a host is this machine.
fn is_local(host: &[u8]) -> bool
    ensures { result ≡ hosts.is_local host.now }
{
    is_named(host, "localhost") || is_named(host, "127.0.0.1") || is_named(host, "[::1]")
}

/// Whether a host is the name that the room was given.
fn is_own(own: &Option<Words>, host: &[u8]) -> bool
    ensures { result ≡ hosts.is_own own.now host.now }
{
    match own {
        None => false,
        Some(name) => is_named(host, name.as_str()),
    }
}

/// Whether a host is that name in letters of any case, with a port after it or none.
fn is_named(host: &[u8], name: &str) -> bool
    ensures { result ≡ hosts.is_named host.now name.now }
{
    if host.len() < name.len() {
        return false;
    }
    let (front, rest) = host.split_at(name.len());
    front.eq_ignore_ascii_case(name.as_bytes()) && is_port(rest)
}

/// Whether that is nothing, or a colon and digits.
fn is_port(rest: &[u8]) -> bool
    ensures { result ≡ hosts.is_port rest.now }
{
    match rest.split_first() {
        None => true,
        Some((first, digits)) => *first == b':' && are_digits(digits),
    }
}

fn are_digits(bytes: &[u8]) -> bool
    ensures { result ≡ hosts.are_digits bytes.now }
{
    bytes.iter().all(|b| b.is_ascii_digit())
}
