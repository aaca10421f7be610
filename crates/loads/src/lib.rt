// What is asked of trays that are to be loaded: whether they are a plan, and how many of them leave the stock.
//
// A plan breaks no cap and is balanced. The caps are asked side by side, with the trays of all sets added up at once; the balance
// is asked station by station. These functions are for the planner, whose proof shows what they require.
#![tactic(auto)]

ghost use Rattle.std.specs.Prelude.{◌≡◌, ◌*◌, ◌<◌, ◌≤◌, ◌==◌, true, length, nat_le, zip, filter, sum_by};
ghost use Rattle.std.specs.List.{list_all, range_with_len};
ghost use Rattle.floor.specs.Numbers.{most_lanes};
ghost use Rattle.network.specs.Plans.{through, total};
ghost use Rattle.calls.specs.Does.{side_within, station_balanced, is_plan};
ghost use Rattle.rooms.specs.Rooms.{at};
ghost use Rattle.tables.specs.Parts.{end_in};
ghost use Rattle.tables.specs.Tables.{meaning_in};

use measures::load_side;
use plant::MOST_SETS;
use rooms::LoadedSide;
use tables::{LoadedFloor, TableLane};

// No sum is above its cap.
fn sums_within(side: &LoadedSide) -> bool
    ensures { result ≡ list_all (λ q. nat_le q.0 q.1) (zip side.now.sums.now side.now.caps.now) }
{
    side.sums
        .iter()
        .zip(side.caps)
        .all(|(sum, cap)| *sum <= u64::from(*cap))
}

// No set of a side carries more than its cap.
fn side_within(floor: &LoadedFloor, side: usize) -> bool
    requires { side < 2 * floor.now.tables.now.stations }
    ensures { result ≡ side_within (meaning_in floor.now.tables.now) (at floor.now.trays.now) side }
{
    let mut sums = [0; MOST_SETS];
    sums_within(&load_side(floor, side, &mut sums))
}

// No set of any side carries more than its cap.
fn sides_within(floor: &LoadedFloor) -> bool
    ensures { result ≡ list_all (side_within (meaning_in floor.now.tables.now) (at floor.now.trays.now)) (range_with_len 0 (2 * floor.now.tables.now.stations)) }
{
    (0..2 * floor.tables.stations).all(|side| side_within(floor, side))
}

// The trays of those of the lanes that have an end at a station.
fn trays_of_lanes(lanes: &[TableLane], trays: &[u32], entering: bool, station: usize) -> u64
    requires { length lanes.now ≤ most_lanes }
    ensures { result ≡ sum_by (λ q. q.1) (filter (λ q. (end_in entering q.0).station == station) (zip lanes.now trays.now)) }
{
    lanes
        .iter()
        .zip(trays)
        .filter(|(lane, _)| lane.end(entering).station == station)
        .map(|(_, trays)| u64::from(*trays))
        .sum()
}

// The trays of the lanes that enter a station, or that leave it.
fn trays_through(floor: &LoadedFloor, entering: bool, station: usize) -> u64
    ensures { result ≡ through (meaning_in floor.now.tables.now) (at floor.now.trays.now) (λ _. true) entering station }
{
    trays_of_lanes(
        floor.tables.lanes.as_slice(),
        floor.trays,
        entering,
        station,
    )
}

// As many trays enter the station as leave it, if it is neither the stock nor the despatch.
#[tactic(auto, unfolding(calls::specs::Does::station_balanced))]
fn station_balanced(floor: &LoadedFloor, station: usize) -> bool
    ensures { result ≡ station_balanced (meaning_in floor.now.tables.now) (at floor.now.trays.now) station }
{
    let is_pole = station == floor.tables.stock || station == floor.tables.despatch;
    is_pole || trays_through(floor, true, station) == trays_through(floor, false, station)
}

// Every station is balanced, the stock and the despatch apart.
fn stations_balanced(floor: &LoadedFloor) -> bool
    ensures { result ≡ list_all (station_balanced (meaning_in floor.now.tables.now) (at floor.now.trays.now)) (range_with_len 0 floor.now.tables.now.stations) }
{
    (0..floor.tables.stations).all(|station| station_balanced(floor, station))
}

// Whether the trays are a plan.
#[tactic(auto, using(crate::proofs::Every::every_round), unfolding(calls::specs::Does::is_plan))]
pub fn is_plan(floor: &LoadedFloor) -> bool
    ensures { result ≡ is_plan (meaning_in floor.now.tables.now) (at floor.now.trays.now) }
{
    sides_within(floor) && stations_balanced(floor)
}

// How many trays leave the stock.
pub fn total_of(floor: &LoadedFloor) -> u64
    ensures { result ≡ total (meaning_in floor.now.tables.now) (at floor.now.trays.now) }
{
    trays_through(floor, false, floor.tables.stock)
}
