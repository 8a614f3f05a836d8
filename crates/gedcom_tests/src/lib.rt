//! Tests of what no program can be given: devices that fail at a call, a month 13, a command line without a
//! word; with ample memory. All else is tested over the executables, from tables.
//!
//! They are a crate of their own above all of these, since a crate that has tests is proved twice.
#![tactic(auto)]

#[cfg(test)]
mod batches;
#[cfg(test)]
mod command_words;
#[cfg(test)]
mod days;
#[cfg(test)]
mod pages;
#[cfg(test)]
mod transfers;
