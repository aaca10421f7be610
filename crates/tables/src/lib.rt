// A plant's answers, kept in tables. A plant is asked each question once: the ends of every lane, the lanes of every side and
// the cap of every set of a side's lanes. The tables agree with the plant wherever a question is on the floor, so that whoever
// has them never needs to ask the plant again.
#![tactic(auto)]

ghost use Rattle.std.specs.Prelude.{◌≡◌, ℕ, ◌+◌, ◌*◌, ◌^◌, ◌<◌, ◌≤◌, length, slice_index, IfOk, Contains};
ghost use Rattle.floor.specs.Numbers.{most_stations, most_on_side};
ghost use Rattle.floor.specs.Floor.{leaving, entering, sides as all_sides, side as side_number};
ghost use Rattle.tables.specs.Agreement.{Agrees};
ghost use Rattle.tables.specs.Parts.{side_in, lanes_in};
ghost use Rattle.tables.specs.Tables.{meaning_in};
ghost use Rattle.tables.specs.Told.{SidesTold, SidesCapped, lane_told, lanes_told};

use crate::asking::PlantSide;
use crate::tables::side_at;
use plant::Plant;
use std::alloc::{AllocError, Global};

mod asking;
mod loaded;
mod tables;

pub use loaded::LoadedFloor;
pub use tables::{LaneEnd, TableLane, TableSide, Tables};

// All that a plant answers.
pub fn tabulate<P: Plant>(heap: Global, plant: &P) -> Result<Tables, AllocError>
    ensures { IfOk result (λ t. Agrees (P.meaning plant.now) (meaning_in t)) }
{
    let stations = plant.stations();
    let mut caps = Vec::new(heap);
    let sides = table_sides(heap, plant, stations, &mut caps)?;
    let lanes = table_lanes(heap, plant, sides.as_slice())?;
    Ok(Tables {
        stations,
        stock: plant.stock(),
        despatch: plant.despatch(),
        lanes,
        sides,
        caps,
    })
}

// The row of each side. The caps of the sides are added to `caps`, one side after another.
fn table_sides<P: Plant>(
    heap: Global,
    plant: &P,
    stations: usize,
    caps: &mut Vec<u32>,
) -> Result<Vec<TableSide>, AllocError>
    requires { stations ≡ (P.meaning plant.now).floor.stations }
    ensures told { IfOk result (λ v. SidesTold (P.meaning plant.now).floor (all_sides (P.meaning plant.now).floor) v.items) }
    ensures capped { IfOk result (λ v. SidesCapped (P.meaning plant.now) (all_sides (P.meaning plant.now).floor) v.items caps.new.items) }
{
    let mut sides = Vec::new(heap);
    for side in 0..2 * stations {
        let row = PlantSide::new(plant, side).table(caps)?;
        sides.push(row)?;
    }
    Ok(sides)
}

// The row of each lane.
fn table_lanes<P: Plant>(
    heap: Global,
    plant: &P,
    sides: &[TableSide],
) -> Result<Vec<TableLane>, AllocError>
    requires { SidesTold (P.meaning plant.now).floor (all_sides (P.meaning plant.now).floor) sides.now }
    ensures { IfOk result (λ v. v.items ≡ lanes_told (P.meaning plant.now).floor (P.meaning plant.now).floor.lanes) }
{
    (0..plant.lanes())
        .map(|lane| table_lane(plant, sides, lane))
        .collect(heap)
}

// The row of a lane.
fn table_lane<P: Plant>(plant: &P, sides: &[TableSide], lane: usize) -> TableLane
    requires on_floor { lane < (P.meaning plant.now).floor.lanes }
    requires told { SidesTold (P.meaning plant.now).floor (all_sides (P.meaning plant.now).floor) sides.now }
    ensures { result ≡ lane_told (P.meaning plant.now).floor lane }
{
    let (from, to) = lane_ends(plant, lane);
    TableLane {
        leaving: lane_end(sides, lane, from, false),
        entering: lane_end(sides, lane, to, true),
    }
}

// The stations that a lane leaves and enters.
fn lane_ends<P: Plant>(plant: &P, lane: usize) -> (usize, usize)
    requires { lane < (P.meaning plant.now).floor.lanes }
    ensures from { result.0 ≡ (P.meaning plant.now).floor.end leaving lane }
    ensures to { result.1 ≡ (P.meaning plant.now).floor.end entering lane }
    ensures on_floor { (result.0 < (P.meaning plant.now).floor.stations) × (result.1 < (P.meaning plant.now).floor.stations) }
    ensures few { (P.meaning plant.now).floor.stations ≤ most_stations }
{
    plant.ends(lane).unwrap()
}

// The end of a lane at a station: its position is found among the lanes of the side there.
fn lane_end(sides: &[TableSide], lane: usize, station: usize, entering: bool) -> LaneEnd
    requires few { station < most_stations }
    requires on { side_number entering station < length sides.now }
    requires narrow { (side_in sides.now (side_number entering station)).width ≤ most_on_side }
    requires there { Contains (lanes_in sides.now (side_number entering station)) lane }
    ensures station { result.station ≡ station }
    ensures within { result.position < length (lanes_in sides.now (side_number entering station)) }
    ensures found { slice_index (lanes_in sides.now (side_number entering station)) result.position ≡ lane }
{
    let row = &sides[side_at(station, entering)];
    LaneEnd {
        station,
        position: position_in(row.lanes(), lane),
    }
}

// The position of a lane that is among those of a side.
fn position_in(lanes: &[usize], lane: usize) -> usize
    requires { Contains lanes.now lane }
    ensures within { result < length lanes.now }
    ensures found { slice_index lanes.now result ≡ lane }
{
    lanes.iter().position(|other| *other == lane).unwrap()
}
