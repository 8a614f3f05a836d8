//! Why a row is no request.

ghost use Rattle.std.specs.Prelude.{◌≡◌, None};

use receipts::Token;
use record_text::RefusalKind;
use std::alloc::AllocError;

/// Why a row is no request, with its token where it is known by one.
#[derive(Debug, Drop)]
pub struct BadRequest {
    pub token: Option<Token>,
    pub kind: RefusalKind,
}

impl From<AllocError> for BadRequest {
    ghost use Rattle.std.specs.Prelude.{◌≡◌, None};
    ghost use Rattle.record_text.specs.declared.refusal.RefusalKind.TheVariants.{OutOfMemory};

    ghost from_gives = { λ _ bad. bad ≡ record { token = None; kind = OutOfMemory } };

    fn from(_e: AllocError) -> BadRequest {
        untold(RefusalKind::OutOfMemory)
    }
}

/// A refusal that tells no token.
pub(crate) fn untold(kind: RefusalKind) -> BadRequest
    ensures { result ≡ record { token = None; kind = kind } }
{
    BadRequest { token: None, kind }
}
