//! Tests `tk_page`, `tk_latch` and `tk_now` only through their public calls. It is a separate
//! crate, so that CI proves the code under test once.
#![tactic(auto)]

#[cfg(test)]
mod tests;
