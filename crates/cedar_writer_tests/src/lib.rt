//! Tests of reading and writing a policy in one step: rows of tokens, and their marks as the written table has them; of the tokens
//! as slices of a text; of the layout of marks; and of printed policies.
#![tactic(auto)]

#[cfg(test)]
mod layouts;
#[cfg(test)]
mod printed;
#[cfg(test)]
mod slices;
#[cfg(test)]
mod tests;
