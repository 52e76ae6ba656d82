//! Tests of the formatter's parts: tokens, lookups, trees, documents and layouts, over worked examples of the written rules.
//! There is nothing here to call.
#![tactic(auto)]

#[cfg(test)]
mod tests;
