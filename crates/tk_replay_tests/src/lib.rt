//! Tests `tk_script` and `tk_replay` only through their public calls. It is a separate crate, so
//! that CI proves the code under test once.
#![tactic(auto)]

#[cfg(test)]
mod tests;
