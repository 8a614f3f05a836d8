//! What an archive has for the places of a page.

ghost use Rattle.std.specs.Prelude.{◌≡◌};

use record_text::RefusalKind;
use std::marker::Model;

/// For each entry of a page the number of its place, none where it names none, or why there is no such place.
/// Contracts see it as their list.
#[derive(Debug, Drop)]
pub struct Places {
    found: Vec<Result<Option<u32>, RefusalKind>>,
}

impl Model for Places {
    ghost use Rattle.std.specs.Prelude.{List};
    ghost use Rattle.page_batches.specs.Looks.{Found};

    ghost Value = { List Found };

    ghost view = { λ a. a.found.items };
}

impl Places {
    pub(crate) fn new(found: Vec<Result<Option<u32>, RefusalKind>>) -> Places
        ensures { result ≡ found.items }
    {
        Places { found }
    }

    pub(crate) fn as_slice(&self) -> &[Result<Option<u32>, RefusalKind>]
        ensures { result.now ≡ self.now }
    {
        self.found.as_slice()
    }
}
