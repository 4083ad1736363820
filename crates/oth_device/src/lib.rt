//! The devices that a program reads from and writes to: what any source and any sink does, how readers and writers of
//! the standard library are made such, and fakes that fail where they are told to.
#![tactic(auto)]

mod device;
pub mod fakes;

pub use device::{Failed, FromRead, Sink, Source, ToWrite, write_all};
