//! Tests `tk_ntp` only through its public calls. It is a separate crate, so that CI proves the code
//! under test once.
#![tactic(auto)]

#[cfg(test)]
mod tests;
