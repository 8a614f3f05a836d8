//! Answers to the rows of the tests that need no tables: values made of words, stored lines read as records, a state
//! that is changed and asked, by itself and by a view, and changes that are noted for the tables. No part of the
//! product.
#![tactic(auto)]

mod answering;
mod asking;
mod changing;
mod fields;
mod lines;
mod noted;
mod planning;
mod printed;
mod reading;
mod values;

pub use answering::answer_noted;
pub use asking::{
    Key, Question, question_of, say_number_of, say_record_of, say_referrers, say_slip_of,
};
pub use noted::{Noted, nothing};
