//! The commands of the program for a module of WebAssembly: each export takes one line, and writes what `run` of
//! `oth_run` writes for it. Nothing is imported, nothing is kept from call to call, and no memory is asked for: the
//! host lends room for the line and for the reply, and what a search remembers stands on the stack.
//!
//! An export does nothing but find the reply and put it into the room (`replies`, `room`). `solving` solves boards over
//! `memory`, `analysing` tells the turns of a game. The definitions of replies are those of `oth_text`, which `oth_run`
//! speaks of too; `specs/Room` says what stands in the room afterwards.
#![tactic(auto)]

mod analysing;
mod memory;
mod replies;
mod room;
mod solving;
