//! What bytes begin with.

use std::marker::Model;

/// What is looked at of a head.
#[derive(Debug, Drop)]
pub struct Head {
    /// The method, in its case.
    pub method: Vec<u8>,
    /// The target, as it stands in the request line.
    pub target: String,
    /// The minor version: 1 of `HTTP/1.1`.
    pub minor: u8,
    /// How many header lines are named Host, in letters of any case.
    pub hosts: usize,
    /// The value of the first of them; empty where there is none.
    pub host: Vec<u8>,
}

impl Model for Head {
    ghost use Rattle.std.specs.Prelude.{string_bytes};
    ghost use Rattle.room_requests.specs.Parts as parts;

    ghost Value = { parts.Head };

    ghost view = { λ h. record {
      method = h.method.items;
      target = string_bytes h.target;
      minor = h.minor;
      hosts = h.hosts;
      host = h.host.items;
    } };
}

/// What the bytes of a connection begin with.
#[derive(Debug, Drop)]
pub enum HeadRead {
    /// There is no byte.
    Nothing,
    /// They begin with no head: one is malformed, or the bytes end within it.
    Malformed,
    /// A head has more than 64 header lines, or does not end within 8,192 bytes.
    TooLarge,
    /// A head within these limits.
    Whole(Head),
}
