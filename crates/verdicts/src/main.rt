// Judges many small plant files, for trying the reader on all kinds of input. Each line of standard input is a file in hex
// digits, an empty line the empty file; for each the program prints `accepted`, or the line of the refusal.
#![tactic(auto)]

ghost use Rattle.std.specs.Prelude.{◌≡◌, IfOk};
ghost use Rattle.plantformat.specs.Judge.{judge};
ghost use Rattle.verdicts.specs.Verdicts.{verdict_line};

use anyhow::anyhow;
use hexdigits::bytes_of;
use listing::show_refusal;
use plantfile::{ReadError, read_plant};
use std::alloc::{AllocError, Global};
use std::io::{BufRead, BufReader};

// The line that tells a file's verdict.
fn told_verdict(heap: Global, file: &[u8]) -> Result<Vec<u8>, AllocError>
    ensures { IfOk result (λ line. line.items ≡ verdict_line (judge file.now)) }
{
    let (_, verdict) = read_plant(heap, file);
    match verdict {
        Ok(()) => b"accepted\n".to_vec(heap),
        Err(ReadError::Refused(refusal)) => show_refusal(heap, b"file", refusal),
        Err(ReadError::NoMemory) => Err(AllocError),
    }
}

// Judges each line.
fn judge_lines(rt: &HostRuntime) -> anyhow::Result<()> {
    let heap = rt.alloc();
    for line in BufReader::new(heap, rt.stdin())?.lines(heap) {
        let Some(file) = bytes_of(heap, line?.as_bytes())? else {
            return Err(anyhow!("a line holds something else than bytes in hex digits"));
        };
        rt.write_all(told_verdict(heap, file.as_slice())?.as_slice())?;
    }
    Ok(())
}

fn main(rt: HostRuntime) -> anyhow::Result<()> {
    judge_lines(&rt)
}
