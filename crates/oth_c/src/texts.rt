//! Texts for C programs, read and printed. Only C calls what stands here, so no other room uses a name of this one.
//!
//! `lines`: board lines, transcripts and moves lines. `position`: the struct that a position is read into and printed
//! from. `version`: which version of the library this is.
mod lines;
mod position;
mod version;
