// What the programs share: the file on standard input, what is printed of it, and how a program ends. No contract can speak of input
// and output, so that all work on the bytes is done elsewhere.
#![tactic(auto)]

ghost use Rattle.std.specs.Prelude.{◌≡◌};
ghost use Rattle.std.specs.Process.{exit_status};
ghost use Rattle.console.specs.Ending.{failure_words, status_told, FailureStays, Printed};
ghost use Rattle.console.specs.declared.Failure.TheVariants.{NoMemory, Io};

use std::alloc::AllocError;
use std::convert::AsSlice;
use std::io::Read;
use std::process::ExitCode;
use std::{fmt, io};

// Why a program ends with status 1.
#[derive(Drop)]
pub enum Failure {
    // The input is refused, which this line says.
    Refused(Vec<u8>),
    NoMemory,
    // A read of standard input or a write failed.
    Io(io::Error),
    // The day's sheet is there and cannot be read.
    Sheet(io::Error),
}

impl From<AllocError> for Failure {
    ghost from_gives = { λ _ failure. failure ≡ NoMemory };

    fn from(_: AllocError) -> Failure {
        Failure::NoMemory
    }
}

impl From<io::Error> for Failure {
    ghost from_gives = { λ e failure. failure ≡ Io e };

    fn from(e: io::Error) -> Failure {
        Failure::Io(e)
    }
}

impl fmt::Display for Failure {
    ghost output = { failure_words };

    fn fmt<W: fmt::Write>(&self, f: &mut fmt::Formatter<W>) -> fmt::Result {
        match self {
            Failure::Refused(_) => write!(f, "the input is refused"),
            Failure::NoMemory => write!(f, "out of memory"),
            Failure::Io(e) => write!(f, "{e}"),
            Failure::Sheet(e) => write!(f, "today.bin: {e}"),
        }
    }
}

// What an input holds. One byte more than it may have is enough to refuse it, so no more than that is read.
pub fn read_to<I: Read + Drop>(rt: &HostRuntime, input: I, most_bytes: u32) -> io::Result<Vec<u8>> {
    let mut bytes = Vec::new(rt.alloc());
    input
        .take(u64::from(most_bytes) + 1)
        .read_to_end(&mut bytes)?;
    Ok(bytes)
}

// The file on standard input.
pub fn read_file(rt: &HostRuntime, most_bytes: u32) -> io::Result<Vec<u8>> {
    read_to(rt, rt.stdin(), most_bytes)
}

// Prints what a program answers, which is a listing or the line of a refusal. A refusal that is printed is a failure all the same.
pub fn print_answer<Lines: AsSlice<u8> + Drop>(
    rt: &HostRuntime,
    answer: Result<Lines, Failure>,
) -> Result<(), Failure>
    ensures fails { FailureStays answer result }
    ensures told { Printed answer result }
{
    match answer {
        Ok(lines) => {
            rt.write_all(lines.as_slice())?;
            Ok(())
        }
        Err(Failure::Refused(line)) => {
            rt.write_all(line.as_slice())?;
            Err(Failure::Refused(line))
        }
        Err(failure) => Err(failure),
    }
}

// Says on standard error why the program could not answer, in one line that begins with its name. A refusal is an answer.
pub fn tell_failure(rt: &HostRuntime, program: &str, ending: &Result<(), Failure>) {
    match ending {
        Ok(()) | Err(Failure::Refused(_)) => {}
        Err(failure) => {
            let _ = eprintln!(rt; "{program}: {failure}");
        }
    }
}

// The status that a program ends with.
pub fn status_of(ending: Result<(), Failure>) -> ExitCode
    ensures { exit_status result ≡ status_told ending }
{
    match ending {
        Ok(()) => ExitCode::SUCCESS,
        Err(_) => ExitCode::FAILURE,
    }
}
