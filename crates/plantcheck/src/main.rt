// Judges a plant file. The file comes on standard input; the program prints the plant with every cap that a planner will go by,
// and ends with status 0, or prints the one line of the refusal and ends with status 1. A read or a write that fails, and want
// of memory, are told in one line on standard error, with status 1.
#![tactic(auto)]

ghost use Rattle.plantformat.specs.Judge.{judge};
ghost use Rattle.plantcheck.specs.Answers.{Answers};

use console::{Failure, print_answer, read_file, status_of, tell_failure};
use listing::{show_plant, show_refusal};
use plantfile::{ReadError, read_plant};
use plantformat::MOST_BYTES;
use std::alloc::Global;
use std::process::ExitCode;

// What is to be printed of a file.
fn answer_to(heap: Global, file: &[u8]) -> Result<String, Failure>
    ensures { Answers (judge file.now) result }
{
    let (plant, verdict) = read_plant(heap, file);
    match verdict {
        Ok(()) => Ok(show_plant(heap, &plant)?),
        Err(ReadError::Refused(refusal)) => {
            Err(Failure::Refused(show_refusal(heap, b"file", refusal)?))
        }
        Err(ReadError::NoMemory) => Err(Failure::NoMemory),
    }
}

fn check_plant(rt: &HostRuntime) -> Result<(), Failure> {
    let file = read_file(rt, MOST_BYTES as u32)?;
    print_answer(rt, answer_to(rt.alloc(), file.as_slice()))
}

fn main(rt: HostRuntime) -> ExitCode {
    let ending = check_plant(&rt);
    tell_failure(&rt, "plantcheck", &ending);
    status_of(ending)
}
