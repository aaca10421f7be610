// What is measured of the trays on a floor: how much room each lane has at its two sides, and how much it would have if another
// lane carried no trays. Each question goes once over the sets of one side.
ghost use Rattle.std.specs.Prelude.{◌≡◌, ℕ, ◌+◌, ◌*◌, ◌^◌, ◌<◌, ◌≤◌, length, vec_len, slice_index};
ghost use Rattle.floor.specs.Numbers.{most_on_side};
ghost use Rattle.floor.specs.Floor.{width, end_of, station_of};
ghost use Rattle.network.specs.Plans.{trays as trays_on};
ghost use Rattle.rooms.specs.Rooms.{at};
ghost use Rattle.tables.specs.Tables.{meaning_in};
ghost use Rattle.measures.specs.ByRooms.{room_zeroing};
ghost use Rattle.measures.specs.Measures.{Measured, MeasuredBelow, OfSide, Put, position_room, position_zeroing};

use crate::lane_rooms::LaneRooms;
use arrayvec::ArrayVec;
use plant::{MOST_ON_SIDE, MOST_SETS};
use rooms::LoadedSide;
use tables::LoadedFloor;

// The trays at the positions of a side.
pub fn trays_on_side(floor: &LoadedFloor, side: usize) -> ArrayVec<u32, MOST_ON_SIDE>
    requires { side < 2 * floor.now.tables.now.stations }
    ensures all { length result.items ≡ width (meaning_in floor.now.tables.now).floor side }
    ensures each { (p : ℕ) → p < width (meaning_in floor.now.tables.now).floor side → slice_index result.items p ≡ trays_on (meaning_in floor.now.tables.now) (at floor.now.trays.now) (end_of side) (station_of side) p }
    ensures past { (p : ℕ) → width (meaning_in floor.now.tables.now).floor side ≤ p → slice_index result.items p ≡ 0 }
{
    let mut trays = ArrayVec::new();
    for lane in floor.tables.lanes_of(side) {
        trays.push(floor.trays[*lane]);
    }
    trays
}

// A side of the floor with its trays, and the trays of every set of its lanes, which are kept in the buffer.
pub fn load_side<'a>(
    floor: &'a LoadedFloor,
    side: usize,
    buffer: &'a mut [u64; MOST_SETS],
) -> LoadedSide<'a>
    requires { side < 2 * floor.now.tables.now.stations }
    ensures { OfSide (meaning_in floor.now.tables.now) (at floor.now.trays.now) side result.caps.now result.trays.items }
{
    let caps = floor.tables.caps_of(side);
    LoadedSide::new(caps, trays_on_side(floor, side), buffer)
}

// The room of a position of a side, with the trays of another put to 0.
fn room_on_side(floor: &LoadedFloor, side: usize, position: usize, other: usize) -> u32
    requires side { side < 2 * floor.now.tables.now.stations }
    requires on { position < width (meaning_in floor.now.tables.now).floor side }
    ensures { result ≡ position_zeroing (meaning_in floor.now.tables.now) (at floor.now.trays.now) (end_of side) (station_of side) position other }
{
    let mut sums = [0; MOST_SETS];
    load_side(floor, side, &mut sums).room_without(position, other)
}

// The room of a lane at one of its ends, with the trays of another lane at the same side put to 0.
#[tactic(auto, using(crate::proofs::SideRooms::zeroing_is, floor::proofs::Places::end_of_side, floor::proofs::Places::station_of_side))]
pub fn room_zeroing(floor: &LoadedFloor, entering: bool, lane: usize, other: usize) -> u32
    requires lane { lane < vec_len floor.now.tables.now.lanes }
    requires other { other < vec_len floor.now.tables.now.lanes }
    requires beside { (meaning_in floor.now.tables.now).floor.end entering other ≡ (meaning_in floor.now.tables.now).floor.end entering lane }
    ensures { result ≡ room_zeroing (meaning_in floor.now.tables.now) (at floor.now.trays.now) entering lane other }
{
    room_on_side(
        floor,
        floor.tables.side_of(lane, entering),
        floor.tables.position_of(lane, entering),
        floor.tables.position_of(other, entering),
    )
}

// The rooms at the positions of a side.
fn rooms_on_side(floor: &LoadedFloor, side: usize) -> [u32; MOST_ON_SIDE]
    requires { side < 2 * floor.now.tables.now.stations }
    ensures { (p : ℕ) → p < width (meaning_in floor.now.tables.now).floor side → slice_index result p ≡ position_room (meaning_in floor.now.tables.now) (at floor.now.trays.now) (end_of side) (station_of side) p }
{
    let mut sums = [0; MOST_SETS];
    load_side(floor, side, &mut sums).rooms()
}

// Puts the rooms at the positions of a side at the numbers of its lanes, where these enter a station, or where they leave one.
fn put_by_lane(lanes: &[usize], on: &[u32; MOST_ON_SIDE], entering: bool, rooms: &mut [LaneRooms])
    requires few { length lanes.now ≤ most_on_side }
    requires there { (p : ℕ) → p < length lanes.now → slice_index lanes.now p < length rooms.old }
    requires apart { (p q : ℕ) → p < length lanes.now → q < length lanes.now → slice_index lanes.now p ≡ slice_index lanes.now q → p ≡ q }
    ensures { Put entering lanes.now on.now rooms.old rooms.new (length lanes.now) }
{
    for (lane, room) in lanes.iter().zip(on) {
        rooms[*lane] = rooms[*lane].with(entering, *room);
    }
}

// Whether the lanes of a side enter its station.
fn lanes_enter(side: usize) -> bool
    ensures { result ≡ end_of side }
{
    side % 2 == 1
}

// Measures the rooms at a side.
fn measure_side(floor: &LoadedFloor, side: usize, rooms: &mut [LaneRooms])
    requires side { side < 2 * floor.now.tables.now.stations }
    requires rooms { length rooms.old ≡ vec_len floor.now.tables.now.lanes }
    requires below { MeasuredBelow (meaning_in floor.now.tables.now) (at floor.now.trays.now) rooms.old side }
    ensures all { length rooms.new ≡ length rooms.old }
    ensures more { MeasuredBelow (meaning_in floor.now.tables.now) (at floor.now.trays.now) rooms.new (side + 1) }
{
    let on = rooms_on_side(floor, side);
    put_by_lane(floor.tables.lanes_of(side), &on, lanes_enter(side), rooms);
}

// The room of every lane at both its ends, from one round over the sets of each side.
pub fn measure(floor: &LoadedFloor, rooms: &mut [LaneRooms])
    requires { length rooms.old ≡ vec_len floor.now.tables.now.lanes }
    ensures { Measured floor.now.tables.now floor.now.trays.now rooms.new }
{
    for side in 0..2 * floor.tables.stations {
        measure_side(floor, side, rooms);
    }
}
