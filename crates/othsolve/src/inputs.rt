//! What a run reads: standard input, or the files that the words name, one after the other.

ghost use Rattle.std.specs.Prelude.{◌≡◌, ◌≤◌, ◌+◌, ◌<◌, ◌↔◌, IfErr, IfOk, OnOk, false, length};
ghost use Rattle.oth_run.specs.Run.{AreLawful};
ghost use Rattle.othsolve.specs.Program.{AreRefused, file_count};

use either::{Either, Left, Right};
use oth_main::{Errors, Joined, RunFault, Words, check_settings, print_run_fault};
use oth_text::{FromRead, Sink};
use std::alloc::Global;
use std::fs::{File, OpenFile};
use std::io;
use std::io::{Error, ErrorKind, Read};
use std::rt::Files;

/// The name that stands for standard input.
pub const STANDARD_INPUT: &str = "-";

/// Standard input, where the words name no file to report the lines of; else those files in their order, each of which
/// is opened by itself, also where it is named twice, and `-` is standard input. No clause can say which file an input
/// is, only how many there are. The settings are tested before a file is opened. Where they are refused or a file can't
/// be opened, that is told, and the result is the status: 2 or 1.
pub fn inputs_of<T: Files + AllocGlobal, I: Read + Copy + Drop, E: Sink>(
    rt: &T,
    stdin: I,
    words: &Words,
    errors: &mut Errors<E>,
) -> Result<Joined<FromRead<Either<I, T::File>>>, u8>
    ensures works { IfOk result (λ inputs. inputs.has_failed ≡ false) }
    ensures standard { IfOk result (λ inputs. file_count words.now ≡ 0 → length inputs.later.items ≡ 0) }
    ensures files { IfOk result (λ inputs. 0 < file_count words.now
        → length inputs.later.items + 1 ≡ file_count words.now) }
    ensures refused { IfErr result (λ s. s ≡ 2 ↔ AreRefused words.now) }
    ensures statuses { IfErr result (λ s. (1 ≤ s) × (s ≤ 2)) }
{
    let Words::Run(settings, _, _, names) = words else {
        return Ok(Joined::of(rt.alloc(), FromRead::new(Left(stdin))));
    };
    if names.is_empty() {
        return Ok(Joined::of(rt.alloc(), FromRead::new(Left(stdin))));
    }
    match check_settings(settings) {
        Ok(()) => files_of(rt, stdin, names.as_slice(), errors),
        Err(fault) => Err(print_run_fault(fault, errors)),
    }
}

// These files, of which there is one at least.
fn files_of<T: Files + AllocGlobal, I: Read + Copy + Drop, E: Sink>(
    rt: &T,
    stdin: I,
    names: &[String],
    errors: &mut Errors<E>,
) -> Result<Joined<FromRead<Either<I, T::File>>>, u8>
    requires { 0 < length names.now }
    ensures works { IfOk result (λ inputs. inputs.has_failed ≡ false) }
    ensures files { IfOk result (λ inputs. length inputs.later.items + 1 ≡ length names.now) }
    ensures status { IfErr result (λ s. s ≡ 1) }
{
    let mut inputs = match opened(rt, stdin, names[0].as_str()) {
        Ok(input) => Joined::of(rt.alloc(), input),
        Err(error) => return Err(unopened(rt.alloc(), names[0].as_str(), &error, errors)),
    };
    for at in 1..names.len() {
        match added(rt, stdin, names[at].as_str(), &mut inputs) {
            Ok(()) => {}
            Err(error) => return Err(unopened(rt.alloc(), names[at].as_str(), &error, errors)),
        }
    }
    Ok(inputs)
}

// Puts the file of this name behind the others.
fn added<T: Files + AllocGlobal, I: Read + Copy + Drop>(
    rt: &T,
    stdin: I,
    name: &str,
    inputs: &mut Joined<FromRead<Either<I, T::File>>>,
) -> io::Result<()>
    ensures works { inputs.new.has_failed ≡ inputs.old.has_failed }
    ensures added { OnOk result (length inputs.new.later.items ≡ length inputs.old.later.items + 1) }
{
    let input = opened(rt, stdin, name)?;
    match inputs.add(input) {
        Ok(()) => Ok(()),
        Err(_) => Err(Error::from(ErrorKind::OutOfMemory)),
    }
}

// The file of this name, or standard input. A directory can be opened and not read, so it is refused.
fn opened<T: Files, I: Read + Drop>(
    rt: &T,
    stdin: I,
    name: &str,
) -> io::Result<FromRead<Either<I, T::File>>> {
    if name == STANDARD_INPUT {
        return Ok(FromRead::new(Left(stdin)));
    }
    let file = File::open(rt, name)?;
    if file.metadata()?.is_dir() {
        return Err(Error::from(ErrorKind::IsADirectory));
    }
    Ok(FromRead::new(Right(file)))
}

// Tells that the file can't be opened, and why. Returns the status.
fn unopened<E: Sink>(alloc: Global, name: &str, error: &Error, errors: &mut Errors<E>) -> u8
    ensures { result ≡ 1 }
{
    let status = print_run_fault(RunFault::Read, errors);
    errors.tell_unopened(alloc, name, error);
    status
}
