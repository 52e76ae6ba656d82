//! Tests of edits that format a text or a part of it: worked edits, and that texts keep their lists for every range.
//! There is nothing here to call.
#![tactic(auto)]

#[cfg(test)]
mod tests;
