//! Tests `tk_counter`, `tk_clock` and `tk_lanes` only through their public calls. It is a separate
//! crate, so that CI proves the code under test once.
#![tactic(auto)]

#[cfg(test)]
mod tests;
