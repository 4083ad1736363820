//! The tests of `oth_rules`, which call what it exports. They stand apart so that `oth_rules` is not proved a
//! second time for them.
#![tactic(auto)]

#[cfg(test)]
mod tests;
