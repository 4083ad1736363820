//! The tests of `oth_table`, which call what it exports. They stand apart so that `oth_table` is not proved a
//! second time for them.
#![tactic(auto)]

#[cfg(test)]
mod tests;
