//! The tests of what several workers do between two calls of a gate: of `run_workers` of `oth_pool`, and of what
//! `oth_walk` exports for it. They stand apart so that neither crate is proved a second time for them.
#![tactic(auto)]

#[cfg(test)]
mod tests;
