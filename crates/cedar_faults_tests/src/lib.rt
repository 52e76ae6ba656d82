//! Tests of what is said of refused texts: worked examples of the written grammar.
#![tactic(auto)]

#[cfg(test)]
mod tests;
