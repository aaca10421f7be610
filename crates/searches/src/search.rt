// A search, and what it works with.
ghost use Rattle.std.specs.Prelude.{◌≡◌, ◌≤◌, ℕ, true, length, vec_len, vec_capacity, IfOk};
ghost use Rattle.rooms.specs.Rooms.{at};
ghost use Rattle.floor.specs.Meaning.{Lawful};
ghost use Rattle.calls.specs.Does.{is_plan};
ghost use Rattle.tables.specs.Tables.{meaning_in};
ghost use Rattle.labels.specs.Labels.{lanes_in};

use crate::label_lanes;
use cuts::{LabelledFloor, MeasuredFloor};
use labels::{LabelTable, SignedLane};
use measures::{LaneRooms, measure};
use moves::amount_of;
use scans::Standing;
use std::alloc::{AllocError, Global};
use tables::{LoadedFloor, Tables};

// The rooms of the lanes, their labels, and the path that was found.
#[derive(Drop)]
pub struct Search {
    pub rooms: Vec<LaneRooms>,
    pub labels: LabelTable,
    pub path: Vec<SignedLane>,
    // every lane has a place for its label
    ghost all_labels: { lanes_in labels ≡ vec_len rooms },
    // a path has room for every lane
    ghost long_enough: { vec_len rooms ≤ vec_capacity path },
}

impl Search {
    ghost use Rattle.searches.specs.Found.{Found, Ready, CutShown};

    // A search for so many lanes.
    pub fn new(heap: Global, lanes: usize) -> Result<Search, AllocError>
        ensures { IfOk result (λ s. vec_len s.rooms ≡ lanes) }
    {
        let none = LaneRooms {
            leaving: 0,
            entering: 0,
        };
        let rooms = vec![in heap; none; lanes]?;
        let labels = LabelTable::new(heap, lanes)?;
        let path = Vec::with_capacity(heap, lanes)?;
        Ok(Search {
            rooms,
            labels,
            path,
        })
    }

    // Finds the move of a step at the trays of a plan, if there is one: its path is kept, its amount answered.
    pub fn find(&mut self, floor: &LoadedFloor) -> Option<u32>
        requires lanes { vec_len self.old.rooms ≡ vec_len floor.now.tables.now.lanes }
        requires lawful { Lawful (meaning_in floor.now.tables.now) }
        requires plan { is_plan (meaning_in floor.now.tables.now) (at floor.now.trays.now) ≡ true }
        ensures found { Found (meaning_in floor.now.tables.now) (at floor.now.trays.now) result self.new }
        ensures lanes { vec_len self.new.rooms ≡ vec_len self.old.rooms }
    {
        measure(floor, self.rooms.as_mut_slice());
        let standing = Standing {
            floor: *floor,
            rooms: self.rooms.as_slice(),
        };
        let (_, last) = label_lanes(&mut self.labels, &standing)?;
        self.labels.read_back(last, &mut self.path);
        Some(amount_of(&standing, self.path.as_slice()))
    }

    // Writes the cut that the labels show: a byte for each lane and one for each station.
    pub fn show_cut(&self, tables: &Tables, lanes: &mut [u8], stations: &mut [u8])
        requires lawful { Lawful (meaning_in tables.now) }
        requires search { vec_len self.now.rooms ≡ vec_len tables.now.lanes }
        requires lanes { length lanes.old ≡ vec_len tables.now.lanes }
        requires stations { length stations.old ≡ tables.now.stations }
        ensures lanes { length lanes.new ≡ length lanes.old }
        ensures stations { length stations.new ≡ length stations.old }
        ensures shown { (f : ℕ → ℕ) → Ready (meaning_in tables.now) f self.now → CutShown (meaning_in tables.now) f lanes.new stations.new }
    {
        let floor = LabelledFloor {
            tables,
            labels: &self.labels,
        };
        let measured = MeasuredFloor {
            floor,
            rooms: self.rooms.as_slice(),
        };
        measured.fill_near(stations);
        floor.fill_sides(stations, lanes);
    }
}
