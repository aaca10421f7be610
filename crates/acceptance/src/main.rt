// Plans many floors and compares every answer with what tools/planner.py said of them. Each line of standard input is a plant file
// in hex digits and, after a space, what is told of its plan; tools/make_plans.py, which writes the lines, says how. A floor agrees
// where a plan that is stepped to its end tells just that, and plans that are run and loaded tell the same. The program prints a line
// for each floor that does not agree, and how many there were and agreed.
#![tactic(auto)]

mod checks;
mod trial;

use anyhow::anyhow;
use checks::agrees;
use hexdigits::bytes_of;
use std::io::{BufRead, BufReader};

// Plans the floor of each line.
fn plan_lines(rt: &HostRuntime) -> anyhow::Result<()> {
    let heap = rt.alloc();
    let mut floors = 0usize;
    let mut agreed = 0usize;
    for line in BufReader::new(heap, rt.stdin())?.lines(heap) {
        let line = line?;
        let Some((digits, expected)) = line.split_once(' ') else {
            return Err(anyhow!("a line has nothing after its file"));
        };
        let Some(file) = bytes_of(heap, digits.as_bytes())? else {
            return Err(anyhow!("a line does not begin with bytes in hex digits"));
        };
        if agrees(heap, file.as_slice(), expected)? {
            agreed = agreed.saturating_add(1);
        } else {
            println!(rt; "floor {floors} does not agree")?;
        }
        floors = floors.saturating_add(1);
    }
    println!(rt; "{floors} floors, {agreed} agreed")?;
    Ok(())
}

fn main(rt: HostRuntime) -> anyhow::Result<()> {
    plan_lines(&rt)
}
