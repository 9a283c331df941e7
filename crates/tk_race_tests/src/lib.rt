//! Tests `tk_race` only through its public calls. It is a separate crate, so that CI proves the
//! code under test once, and next to the tests of `tk_shared`.
#![tactic(auto)]

#[cfg(test)]
mod tests;
