//! Tokens: the words by which a request that comes again is known.

ghost use Rattle.std.specs.Prelude.{◌≡◌, ◌↔◌, IfOk, IsTrue, MatchOption, string_bytes};
ghost use Rattle.std.specs.List.{list_all};
ghost use Rattle.receipts.specs.Tokens.{IsToken, is_printable as printable};

use std::alloc::{AllocError, Global};
use std::marker::Model;

/// The most characters that a token has.
const MAX_CHARACTERS: usize = 64;

/// 1 to 64 characters from `!` to `~`. Contracts see a token as its bytes. A rule of our own.
#[derive(Debug, Drop)]
pub struct Token {
    string: String,
}

impl Model for Token {
    ghost use Rattle.std.specs.Prelude.{List, ℕ, string_bytes};
    ghost use Rattle.receipts.specs.Tokens.{IsToken};

    ghost Value = { List ℕ };

    ghost view = { λ a. string_bytes a.string };

    ghost invariant = { λ a. IsToken (string_bytes a.string) };
}

impl Token {
    /// The string as a token. `None`: it is none. Takes no memory.
    pub fn try_new(string: String) -> Option<Token>
        ensures { MatchOption result (¬ (IsToken (string_bytes string))) (λ t. t ≡ string_bytes string) }
    {
        if is_token(string.as_bytes()) {
            Some(Token { string })
        } else {
            None
        }
    }

    /// The token as a string.
    pub fn as_str(&self) -> &str
        ensures same { result.now ≡ self.now }
        ensures token { IsToken self.now }
    {
        self.string.as_str()
    }

    /// The token as a string that the caller owns. Takes no memory.
    pub fn into_string(self) -> String
        ensures { string_bytes result ≡ self }
    {
        let Token { string } = self;
        string
    }

    /// The same token in memory of its own.
    pub fn copy(&self, alloc: Global) -> Result<Token, AllocError>
        ensures { IfOk result (λ t. t ≡ self.now) }
    {
        Ok(Token {
            string: String::from_str(alloc, self.as_str())?,
        })
    }
}

/// Whether the bytes are a token.
fn is_token(bytes: &[u8]) -> bool
    ensures { IsTrue result ↔ IsToken bytes.now }
{
    !bytes.is_empty() && bytes.len() <= MAX_CHARACTERS && is_printed(bytes)
}

/// Whether each byte is a character from `!` to `~`.
fn is_printed(bytes: &[u8]) -> bool
    ensures { result ≡ list_all printable bytes.now }
{
    bytes.iter().all(|b| is_printable(*b))
}

fn is_printable(byte: u8) -> bool
    ensures { result ≡ printable byte }
{
    b'!' <= byte && byte <= b'~'
}
