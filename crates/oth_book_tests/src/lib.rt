//! The tests of `oth_book`, which call what it exports. They stand apart so that `oth_book` is not proved a second
//! time for them.
#![tactic(auto)]

#[cfg(test)]
mod tests;
