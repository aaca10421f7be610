// Which stations are near.
ghost use Rattle.std.specs.Prelude.{◌≡◌, ℕ, ◌<◌, length, if◌then◌else◌, vec_len, slice_index};
ghost use Rattle.tables.specs.Tables.{meaning_in};
ghost use Rattle.labels.specs.Labels.{marks_in};
ghost use Rattle.cuts.specs.Cut.{EnteringRooms, nears_by_rooms, near_by_rooms, near_byte};

use crate::labelled::LabelledFloor;
use labels::Sign;
use measures::LaneRooms;

// A floor with labels, and the rooms of its lanes.
#[derive(Clone, Copy)]
pub struct MeasuredFloor<'a> {
    pub floor: LabelledFloor<'a>,
    pub rooms: &'a [LaneRooms],
    // every lane has its rooms
    ghost all_rooms: { length rooms.now ≡ vec_len floor.tables.now.lanes },
}

impl MeasuredFloor<'_> {
    // Whether a lane makes a station near: a - lane that leaves it, or a + lane that enters it without being full there.
    fn makes_near(&self, station: usize, lane: usize) -> bool
        requires { lane < vec_len self.now.floor.tables.now.lanes }
        ensures { result ≡ nears_by_rooms (meaning_in self.now.floor.tables.now) self.now.rooms.now (marks_in self.now.floor.labels.now) station lane }
    {
        let tables = self.floor.tables;
        match self.floor.labels.sign(lane) {
            Some(Sign::Plus) => self.rooms[lane].entering != 0
                && tables.end_of(lane, true) == station,
            Some(Sign::Minus) => tables.end_of(lane, false) == station,
            None => false,
        }
    }

    // Whether a station is near: it is the stock, or a lane makes it near.
    #[tactic(auto, unfolding(crate::specs::Cut::near_by_rooms))]
    fn is_near(&self, station: usize) -> bool
        ensures { result ≡ near_by_rooms (meaning_in self.now.floor.tables.now) self.now.rooms.now (marks_in self.now.floor.labels.now) station }
    {
        let tables = self.floor.tables;
        tables.stock == station
            || (0..tables.lanes.len()).any(|lane| self.makes_near(station, lane))
    }

    // A byte for each station, 1 if it is near and 0 if it is far, by the rooms of the lanes where they enter. With the rooms of some
    // trays these are the stations that are near with those trays.
    #[tactic(auto, using(crate::proofs::Nearing::near_are))]
    pub fn fill_near(&self, stations: &mut [u8])
        requires { length stations.old ≡ self.now.floor.tables.now.stations }
        ensures all { length stations.new ≡ length stations.old }
        ensures bytes { (i : ℕ) → i < self.now.floor.tables.now.stations → slice_index stations.new i ≡ (if near_by_rooms (meaning_in self.now.floor.tables.now) self.now.rooms.now (marks_in self.now.floor.labels.now) i then 1 else 0) }
        ensures each { (f : ℕ → ℕ) → EnteringRooms (meaning_in self.now.floor.tables.now) f self.now.rooms.now → (i : ℕ) → i < self.now.floor.tables.now.stations → slice_index stations.new i ≡ near_byte (meaning_in self.now.floor.tables.now) f (marks_in self.now.floor.labels.now) i }
    {
        for (station, byte) in stations.iter_mut().enumerate() {
            *byte = u8::from(self.is_near(station));
        }
    }
}
