//! Laws of lists, bytes, numbers and truth values that several crates cite in their proofs.
//!
//! It has only laws, and uses the standard library.
//!
//! Callers may rely on the laws below `proofs`; none of them is about an archive.
#![tactic(auto)]
