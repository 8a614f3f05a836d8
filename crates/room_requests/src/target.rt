//! The target of a request: its path and its query.

ghost use Rattle.std.specs.Prelude.{◌≡◌};
ghost use Rattle.room_requests.specs.Targets.{local_of, from_slash, path_of, query_of};

/// The target without the scheme and the authority of one that begins with `http://`.
pub fn local_target(target: &str) -> &str
    ensures { result.now ≡ local_of target.now }
{
    match target.strip_prefix("http://") {
        Some(rest) => from_slash(rest),
        None => target,
    }
}

/// From the first slash, or only a slash.
fn from_slash(rest: &str) -> &str
    ensures { result.now ≡ from_slash rest.now }
{
    match rest.find('/') {
        Some(at) => &rest[at..],
        None => "/",
    }
}

/// The path and the query: what stands before the first question mark and after it.
pub fn split_query(target: &str) -> (&str, &str)
    ensures path { result.0.now ≡ path_of target.now }
    ensures query { result.1.now ≡ query_of target.now }
{
    match target.split_once('?') {
        Some((path, query)) => (path, query),
        None => (target, ""),
    }
}
