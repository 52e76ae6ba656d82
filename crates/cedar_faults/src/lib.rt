//! All faults of a text: for each policy that isn't accepted, the first byte at which no accepted text continues, what is there and
//! what could be there. Sentences for people about them.
#![tactic(auto)]

pub mod beginnings;
pub mod brackets;
pub mod expectation;
pub mod expected;
pub mod explain;
pub mod fault;
pub mod kinds;
pub mod laws;
pub mod listing;
mod marks;
pub mod message;
mod moves;
mod part;
mod pending;
pub mod probe;
pub mod reader;
mod recovery;
pub mod samples;
pub mod tips;
mod words;
