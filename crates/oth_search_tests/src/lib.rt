//! The tests of `oth_search`, which call what it exports. They stand apart so that `oth_search` is not proved a second
//! time for them.
#![tactic(auto)]

#[cfg(test)]
mod tests;
