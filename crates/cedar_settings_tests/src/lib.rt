//! Tests of the settings that files `.editorconfig` make.
#![tactic(auto)]

#[cfg(test)]
mod tests;
