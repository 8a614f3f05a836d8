//! Who is living, which register entries are open, and the masked state, which is all that a visitor may see.
//!
//! - `laws`: what may be shown of an archive: who is living, which register entries are open, and the masked state.
//!   These are definitions, and what follows from them; `masking` and `masking` have the code.
//! - `asking`, `dates`, `evidence`, `judgement`, `masks`, `sets`, `telling`: who is living in an archive on a day, and
//!   which register entries are open: found in a few passes over all records, each of which looks at every number once.
//! - `event_parts`, `making`, `parts`, `record_parts`, `state`, `view`: the masked state of an archive: what a visitor
//!   may see of it.
//!
//! Callers may rely on:
//! - every rule is judged in the archive as it is, and never in what is left of it; what is hidden of an archive
//!   changes nothing that is shown.
//! - `living` and `judged` answer what the definitions say of a sound archive; all is judged in the archive as it is.
//! - a `Shown` is made only by `shown`, of a state and a day; it has no receipts and no slips; of a sound archive it
//!   is the masked state, and sound.
#![tactic(auto)]

mod asking;
mod dates;
mod event_parts;
mod evidence;
mod judgement;
pub mod laws;
mod making;
mod masks;
mod parts;
mod record_parts;
mod sets;
mod state;
mod telling;
mod view;

pub use asking::living;
pub use making::shown;
pub use state::Shown;
