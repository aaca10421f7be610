// The trays on a floor, with the rooms of its lanes.
ghost use Rattle.measures.specs.Measures.{Measured};

use measures::LaneRooms;
use tables::LoadedFloor;

// A floor with trays on its lanes, and the rooms of each lane at its two ends.
#[derive(Clone, Copy)]
pub struct Standing<'a> {
    pub floor: LoadedFloor<'a>,
    pub rooms: &'a [LaneRooms],
    // there are rooms for every lane, those at its two ends
    ghost measured: { Measured floor.tables.now floor.trays.now rooms.now },
}
