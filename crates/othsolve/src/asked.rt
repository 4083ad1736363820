//! The words of the command line.

ghost use Rattle.std.specs.Prelude.{◌≤◌, IfErr};

use oth_main::{Words, read_words};
use std::env::Env;
use std::io::ErrorKind;
use std::{env, io};

// Status 1: a device failed.
const DEVICE_FAULT: u8 = 1;

// Status 2: the words of the command line can't be obeyed.
const COMMAND_LINE_FAULT: u8 = 2;

/// What the words of the command line ask for. Where they can't be read, the reason is printed, and this is the status.
pub fn words<R: Env + AllocGlobal + Print + Eprint>(rt: &R) -> Result<Words, u8>
    ensures { IfErr result (λ s. s ≤ 2) }
{
    let alloc = rt.alloc();
    let arguments = match arguments(rt) {
        Ok(arguments) => arguments,
        Err(error) => {
            let reason = words_fault(error.kind());
            let _ = eprintln!(rt; "error: {reason}");
            return Err(COMMAND_LINE_FAULT);
        }
    };
    let mut texts = Vec::new(alloc);
    for argument in arguments.iter() {
        if texts.push(argument.as_str()).is_err() {
            let _ = eprintln!(rt; "error: out of memory");
            return Err(COMMAND_LINE_FAULT);
        }
    }
    match read_words(alloc, texts.as_slice()) {
        Ok(words) => Ok(words),
        Err(error) => match error.print(rt) {
            Ok(()) => Err(error.exit_code() as u8),
            Err(_) if error.use_stderr() => Err(COMMAND_LINE_FAULT),
            Err(_) => Err(DEVICE_FAULT),
        },
    }
}

/// Whether the words ask for why the work ended to be told in words.
pub fn explains(words: &Words) -> bool {
    match words {
        Words::Run(_, telling, _, _) => telling.explains,
        Words::Verify(telling, _) => telling.explains,
        Words::Add(_, telling, _) => telling.explains,
    }
}

/// Whether the terminal, if standard error is one, cuts a row where it is told to: each does that has a name, but for
/// `dumb`.
pub fn cuts_rows<R: Env + AllocGlobal>(rt: &R) -> bool {
    match env::var(rt, "TERM") {
        Ok(name) => !name.as_str().is_empty() && name.as_str() != "dumb",
        Err(_) => false,
    }
}

// Why the words of the command line can't be read.
fn words_fault(kind: ErrorKind) -> &'static str {
    match kind {
        ErrorKind::OutOfMemory => "out of memory",
        _ => "a word of the command line isn't UTF-8, and such files can't be used",
    }
}

// The words of the command line, but for the program's name.
fn arguments<R: Env + AllocGlobal>(rt: &R) -> io::Result<Vec<String>> {
    Ok(env::args(rt)?.collect(rt.alloc())?)
}
