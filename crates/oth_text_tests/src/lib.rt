//! The tests of `oth_text`, which call what it exports. They stand apart so that `oth_text` is not proved a second
//! time for them.
#![tactic(auto)]

#[cfg(test)]
mod tests;
