//! Tests of the formatter and of the program as a whole: many widths, memory, devices, command lines. There is nothing
//! here to call; worked layouts and refusals are in `tests/rows`.
#![tactic(auto)]

#[cfg(test)]
mod tests;
