//! The tests of `oth_main`, which call what it exports. They stand apart so that the crate isn't proved a second time
//! for them.
#![tactic(auto)]

#[cfg(test)]
mod tests;
