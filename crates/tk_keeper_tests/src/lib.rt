//! Tests `tk_keeper` and `tk_pieces` only through their public calls. It is a separate crate, so
//! that CI proves the code under test once.
#![tactic(auto)]

#[cfg(test)]
mod tests;
