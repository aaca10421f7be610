// What a plant answers, in tables.
ghost use Rattle.std.specs.Prelude.{◌≡◌, ℕ, ◌+◌, ◌*◌, ◌^◌, ◌<◌, ◌≤◌, Bool, take, length, vec_len, slice_index};
ghost use Rattle.floor.specs.Numbers.{most_stations, most_lanes, most_on_side};
ghost use Rattle.floor.specs.Floor.{side as side_number, end_of, station_of, place, count, lane_at, width as side_width};
ghost use Rattle.tables.specs.Parts.{end_in, lane_in, side_in, table_floor};

use plant::MOST_ON_SIDE;

// An end of a lane: the station there, and the position of the lane among those of the station's side.
#[derive(Clone, Copy)]
pub struct LaneEnd {
    pub station: usize,
    pub position: usize,
}

// A lane: the end where it leaves a station, and the end where it enters one.
#[derive(Clone, Copy)]
pub struct TableLane {
    pub leaving: LaneEnd,
    pub entering: LaneEnd,
}

// A side: how many lanes it has, their numbers by position, and where its caps begin. A row can be copied, so it owns no list: the
// numbers have a place for each lane that a side may have, and the caps of all sides are in one list of the tables.
#[derive(Clone, Copy)]
pub struct TableSide {
    pub width: usize,
    pub numbers: [usize; MOST_ON_SIDE],
    pub start: usize,
}

// The stations, the lanes in lane order, the sides in side order, and the caps, those of each side in the order of the codes.
#[derive(Drop)]
pub struct Tables {
    pub stations: usize,
    pub stock: usize,
    pub despatch: usize,
    pub lanes: Vec<TableLane>,
    pub sides: Vec<TableSide>,
    pub caps: Vec<u32>,
    // there are two stations at least
    ghost two_stations: { 2 ≤ stations },
    // there are not too many stations
    ghost few_stations: { stations ≤ most_stations },
    // there are not too many lanes
    ghost few_lanes: { vec_len lanes ≤ most_lanes },
    // the stock is a station
    ghost stock_on: { stock < stations },
    // the despatch is a station
    ghost despatch_on: { despatch < stations },
    // every lane leaves a station and enters one
    ghost ends_on: { ((d : Bool) (e : ℕ) → e < vec_len lanes → (end_in d (lane_in lanes.items e)).station < stations) },
    // every station has two sides
    ghost all_sides: { vec_len sides ≡ 2 * stations },
    // each side has as many lanes as it says
    ghost widths: { ((s : ℕ) → s < 2 * stations → (side_in sides.items s).width ≡ side_width (table_floor stations stock despatch lanes.items) s) },
    // no side has too many lanes
    ghost narrow: { ((s : ℕ) → s < 2 * stations → (side_in sides.items s).width ≤ most_on_side) },
    // each side has its lanes by position
    ghost placed: { ((s p : ℕ) → p < (side_in sides.items s).width → slice_index (side_in sides.items s).numbers p ≡ lane_at (table_floor stations stock despatch lanes.items) (end_of s) (station_of s) p) },
    // each lane has its position at the sides that it leaves and enters
    ghost ends_placed: { ((d : Bool) (e : ℕ) → e < vec_len lanes → (end_in d (lane_in lanes.items e)).position ≡ place (table_floor stations stock despatch lanes.items) d (end_in d (lane_in lanes.items e)).station e) },
    // the caps of every side's sets are there
    ghost held: { ((s : ℕ) → s < 2 * stations → (side_in sides.items s).start + 2 ^ (side_in sides.items s).width ≤ vec_len caps) },
}

impl TableLane {
    // The end where the lane enters a station, or the one where it leaves a station.
    pub fn end(self, entering: bool) -> LaneEnd
        ensures { result ≡ end_in entering self }
    {
        if entering {
            self.entering
        } else {
            self.leaving
        }
    }
}

impl TableSide {
    // The numbers of its lanes, by position.
    pub(crate) fn lanes(&self) -> &[usize]
        requires { self.now.width ≤ most_on_side }
        ensures are { result.now ≡ take self.now.width self.now.numbers }
        ensures all { length result.now ≡ self.now.width }
    {
        &self.numbers[..self.width]
    }
}

impl Tables {
    ghost use Rattle.tables.specs.Tables.{meaning_in};

    // The station that a lane enters, or the one that it leaves.
    #[tactic(auto, using(crate::proofs::Rows::station_on))]
    pub fn end_of(&self, lane: usize, entering: bool) -> usize
        requires { lane < vec_len self.now.lanes }
        ensures is { result ≡ (meaning_in self.now).floor.end entering lane }
        ensures on { result < self.now.stations }
    {
        self.lanes[lane].end(entering).station
    }

    // The side where a lane enters a station, or where it leaves one.
    pub fn side_of(&self, lane: usize, entering: bool) -> usize
        requires { lane < vec_len self.now.lanes }
        ensures is { result ≡ side_number entering ((meaning_in self.now).floor.end entering lane) }
        ensures on { result < 2 * self.now.stations }
    {
        side_at(self.end_of(lane, entering), entering)
    }

    // The position of a lane at that side.
    #[tactic(auto, using(crate::proofs::Rows::position_on))]
    pub fn position_of(&self, lane: usize, entering: bool) -> usize
        requires { lane < vec_len self.now.lanes }
        ensures is { result ≡ place (meaning_in self.now).floor entering ((meaning_in self.now).floor.end entering lane) lane }
        ensures on { result < count (meaning_in self.now).floor entering ((meaning_in self.now).floor.end entering lane) }
    {
        self.lanes[lane].end(entering).position
    }

    // The lanes of a side, by position.
    pub fn lanes_of(&self, side: usize) -> &[usize]
        requires { side < 2 * self.now.stations }
        ensures all { length result.now ≡ side_width (meaning_in self.now).floor side }
        ensures few { length result.now ≤ most_on_side }
        ensures each { (p : ℕ) → p < side_width (meaning_in self.now).floor side → slice_index result.now p ≡ lane_at (meaning_in self.now).floor (end_of side) (station_of side) p }
        ensures below { (p : ℕ) → p < side_width (meaning_in self.now).floor side → slice_index result.now p < vec_len self.now.lanes }
    {
        self.row_of(side).lanes()
    }

    // The caps of the sets of a side's lanes, in the order of their codes.
    pub fn caps_of(&self, side: usize) -> &[u32]
        requires { side < 2 * self.now.stations }
        ensures all { length result.now ≡ 2 ^ side_width (meaning_in self.now).floor side }
        ensures each { (X : ℕ) → X < 2 ^ side_width (meaning_in self.now).floor side → slice_index result.now X ≡ (meaning_in self.now).cap (end_of side) (station_of side) X }
    {
        let row = self.row_of(side);
        part(self.caps.as_slice(), row.start, sets_of(row.width))
    }

    // The row of a side.
    fn row_of(&self, side: usize) -> &TableSide
        requires { side < 2 * self.now.stations }
        ensures is { result.now ≡ side_in self.now.sides.items side }
        ensures all { result.now.width ≡ side_width (meaning_in self.now).floor side }
        ensures few { result.now.width ≤ most_on_side }
        ensures each { (p : ℕ) → p < result.now.width → slice_index result.now.numbers p ≡ lane_at (meaning_in self.now).floor (end_of side) (station_of side) p }
        ensures below { (p : ℕ) → p < result.now.width → slice_index result.now.numbers p < vec_len self.now.lanes }
        ensures held { result.now.start + 2 ^ result.now.width ≤ vec_len self.now.caps }
    {
        &self.sides[side]
    }
}

// The side of a station where lanes enter it, or the one where they leave it.
pub(crate) fn side_at(station: usize, entering: bool) -> usize
    requires { station < most_stations }
    ensures { result ≡ side_number entering station }
{
    2 * station + usize::from(entering)
}

// How many sets of lanes a side of this width has.
pub(crate) fn sets_of(width: usize) -> usize
    requires { width ≤ most_on_side }
    ensures { result ≡ 2 ^ width }
{
    1 << width
}

// The numbers from `start` on, as many as `count`.
fn part(numbers: &[u32], start: usize, count: usize) -> &[u32]
    requires { start + count ≤ length numbers.now }
    ensures all { length result.now ≡ count }
    ensures each { (k : ℕ) → k < count → slice_index result.now k ≡ slice_index numbers.now (start + k) }
{
    let end = start + count;
    &numbers[start..end]
}
