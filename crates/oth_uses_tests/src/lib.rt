//! The tests of `oth_uses`, which call what it exports. They stand apart so that it isn't proved a second time for
//! them.
#![tactic(auto)]

#[cfg(test)]
mod tests;
