//! The tests of `oth_device`, which call what it exports. They stand apart so that `oth_device` is not proved a second
//! time for them.
#![tactic(auto)]

#[cfg(test)]
mod tests;
