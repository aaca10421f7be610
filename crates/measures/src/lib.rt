// How a step is worked out from rooms.
#![tactic(auto)]

ghost use Rattle.measures.specs.ByRooms.{RoomsRule, RoomsLabel, RoomsBeside};

mod lane_rooms;
mod lanes;

pub use lane_rooms::LaneRooms;
pub use lanes::{load_side, measure, room_zeroing, trays_on_side};

// The labels that a scanned lane gives follow from rooms alone.
pub fn rooms_rule()
    ensures { RoomsRule }
{}

// So does the labelling of a step.
pub fn rooms_label()
    ensures { RoomsLabel }
{}

// And what a + lane of a path lets through.
pub fn rooms_beside()
    ensures { RoomsBeside }
{}
