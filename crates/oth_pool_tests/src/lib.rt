//! The tests of `solve` and `scores` of `oth_pool`, which call what it exports. They stand apart so that the crate
//! isn't proved a second time for them.
#![tactic(auto)]

#[cfg(test)]
mod tests;
