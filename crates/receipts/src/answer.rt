//! What a request is answered, and what is kept of it.

/// What a request made: its first number and how many, or 0 and 0 where it made nothing. Of an import or a
/// batch of entries: the next number of before, and how many numbers were drawn, also where none was.
#[derive(Clone, Copy, Debug, PartialEq, Eq)]
pub struct Answer {
    pub first: u32,
    pub count: u32,
}

/// What is kept under a token: the SHA-256 of the command's bytes (FIPS 180-4), and its answer.
#[derive(Clone, Copy, Debug, PartialEq, Eq)]
pub struct Receipt {
    pub digest: [u8; 32],
    pub answer: Answer,
}
