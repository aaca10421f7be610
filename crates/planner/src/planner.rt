// What a plan holds besides its plant.
ghost use Rattle.std.specs.Prelude.{◌≡◌, true, length, vec_len};
ghost use Rattle.floor.specs.Meaning.{Lawful};
ghost use Rattle.tables.specs.Tables.{meaning_in};
ghost use Rattle.calls.specs.Events.{at};
ghost use Rattle.calls.specs.Does.{is_plan, tray_list, lane_byte, station_byte};

use searches::Search;
use tables::Tables;

// The tables of a plant, the trays of each lane, what a search works with, the cut of a finished plan, how many moves were made, and
// whether no more can be.
#[derive(Drop)]
pub struct Planner {
    pub(crate) tables: Tables,
    pub(crate) trays: Vec<u32>,
    pub(crate) search: Search,
    pub(crate) cut_lanes: Vec<u8>,
    pub(crate) cut_stations: Vec<u8>,
    pub(crate) moves: u64,
    pub(crate) finished: bool,
    // what the tables mean is lawful
    ghost lawful: { Lawful (meaning_in tables) },
    // every lane has its trays
    ghost all_trays: { vec_len trays ≡ vec_len tables.lanes },
    // a search has a place for every lane
    ghost all_searched: { vec_len search.rooms ≡ vec_len tables.lanes },
    // the cut has a byte for every lane
    ghost all_lanes: { vec_len cut_lanes ≡ vec_len tables.lanes },
    // and one for every station
    ghost all_stations: { vec_len cut_stations ≡ tables.stations },
    // the trays break no cap and are balanced
    ghost plan: { is_plan (meaning_in tables) (at trays.items) ≡ true },
    // the cut of a finished plan is that of its labels
    ghost lanes_shown: { (finished ≡ true → cut_lanes.items ≡ tray_list (length tables.lanes.items) (lane_byte (meaning_in tables) (at trays.items))) },
    ghost stations_shown: { (finished ≡ true → cut_stations.items ≡ tray_list tables.stations (station_byte (meaning_in tables) (at trays.items))) },
}
