// How a plan is shown to a reader, as lines of text: the trays and the moves in all, then a line for each lane and one for each
// station. The lines are those that specs/PlanLines.antt computes from what is told of the plan; nothing is asked of it, so any
// numbers can be shown. Where memory runs out there is no listing.
#![tactic(auto, using(listing::proofs::Each::by_parts))]

ghost use Rattle.std.specs.Prelude.{◌≡◌, length, IfOk, slice_index_or};
ghost use Rattle.listing.specs.Lines.{Adds};
ghost use Rattle.planlines.specs.PlanLines.{no_mark, station_word, total_line, lane_lines, station_lines, plan_lines};

use std::alloc::{AllocError, Global};
use std::io::{self, Write};

// What is told of a plan: the trays that leave the stock, the moves made, the trays on each lane, and the cut's byte for each lane
// (`U`, `L`, or `-` for a lane outside the cut) and for each station (1 for a near one). Trays and bytes are in slices of their own,
// since a plan's readings write them into buffers of their own.
#[derive(Clone, Copy)]
pub struct Told<'a> {
    pub total: u64,
    pub moves: u64,
    pub trays: &'a [u32],
    pub lanes: &'a [u8],
    pub stations: &'a [u8],
}

// A plan's totals, lanes and stations. The listing is bytes and no text, since a lane's byte is printed as it is, whichever it is.
pub fn show_plan(heap: Global, told: &Told) -> Result<Vec<u8>, AllocError>
    ensures { IfOk result (λ v. v.items ≡ plan_lines told.now.total told.now.moves told.now.trays.now told.now.lanes.now told.now.stations.now) }
{
    let mut out = Vec::new(heap);
    told.write_to(&mut out).map_err(|_| AllocError)?;
    Ok(out)
}

impl Told<'_> {
    // Writes the totals, a line for each lane and a line for each station. It fails only where memory runs out.
    fn write_to(&self, out: &mut Vec<u8>) -> io::Result<()>
        ensures { Adds (plan_lines self.now.total self.now.moves self.now.trays.now self.now.lanes.now self.now.stations.now) out.old.items out.new.items result }
    {
        writeln!(out, "trays {} moves {}", self.total, self.moves)?;
        for (lane, trays) in self.trays.iter().enumerate() {
            write!(out, "lane {lane} carries {trays} cut ")?;
            out.write_all(&[self.mark(lane), b'\n'])?;
        }
        for (station, mark) in self.stations.iter().enumerate() {
            writeln!(out, "station {station} {}", word_of(*mark))?;
        }
        Ok(())
    }

    // The byte of a lane, or `-` where there is none for it.
    fn mark(&self, lane: usize) -> u8
        ensures { result ≡ slice_index_or self.now.lanes.now lane no_mark }
    {
        self.lanes.get(lane).copied().unwrap_or(b'-')
    }
}

// The word for a station's byte.
fn word_of(mark: u8) -> &'static str
    ensures { result.now ≡ station_word mark }
{
    if mark == 1 { "near" } else { "far" }
}
