//! What the words ask for, before any text is copied.

use crate::settings::{Settings, Telling};

/// As `Words`, with each file's name as it stands in the words.
#[derive(Clone, Copy, Debug, Drop)]
pub enum Plan<'m, 'a> {
    Run(Settings, Telling, Option<&'a str>, Option<&'m [&'a str]>),
    Verify(Telling, &'a str),
    Add(Settings, Telling, &'a str),
}
