// The rooms of a lane at its two ends.
ghost use Rattle.std.specs.Prelude.{◌≡◌};
ghost use Rattle.measures.specs.Measures.{end_room, with_room};

// The room of a lane where it leaves a station, and where it enters one.
#[derive(Clone, Copy)]
pub struct LaneRooms {
    pub leaving: u32,
    pub entering: u32,
}

impl LaneRooms {
    // The room where the lane enters a station, or where it leaves one.
    pub fn at(self, entering: bool) -> u32
        ensures { result ≡ end_room entering self }
    {
        if entering {
            self.entering
        } else {
            self.leaving
        }
    }

    // The rooms with another one where the lane enters a station, or where it leaves one.
    pub(crate) fn with(self, entering: bool, room: u32) -> LaneRooms
        ensures { result ≡ with_room entering room self }
    {
        if entering {
            LaneRooms {
                entering: room,
                ..self
            }
        } else {
            LaneRooms {
                leaving: room,
                ..self
            }
        }
    }
}
