// How the lanes lie to a cut.
ghost use Rattle.std.specs.Prelude.{◌≡◌, ℕ, ◌<◌, length, vec_len, slice_index};
ghost use Rattle.tables.specs.Tables.{meaning_in};
ghost use Rattle.labels.specs.Labels.{marks_in, lanes_in};
ghost use Rattle.cuts.specs.Cut.{byte_near, cut_byte};

use labels::LabelTable;
use tables::Tables;

// The tables of a floor and the labels of its lanes.
#[derive(Clone, Copy)]
pub struct LabelledFloor<'a> {
    pub tables: &'a Tables,
    pub labels: &'a LabelTable,
    // every lane has a place for its label
    ghost all_labels: { lanes_in labels.now ≡ vec_len tables.now.lanes },
}

impl LabelledFloor<'_> {
    // The byte of a lane: `U` or `L` if it leads from near to far, without a label or with one, else `-`.
    fn side_byte(&self, stations: &[u8], lane: usize) -> u8
        requires lane { lane < vec_len self.now.tables.now.lanes }
        requires stations { length stations.now ≡ self.now.tables.now.stations }
        ensures { result ≡ cut_byte (meaning_in self.now.tables.now) (byte_near stations.now) (marks_in self.now.labels.now) lane }
    {
        let from = self.tables.end_of(lane, false);
        let to = self.tables.end_of(lane, true);
        if stations[from] != 1 || stations[to] == 1 {
            b'-'
        } else if self.labels.sign(lane).is_some() {
            b'L'
        } else {
            b'U'
        }
    }

    // A byte for each lane: how it lies to the cut between the near stations and the far ones.
    pub fn fill_sides(&self, stations: &[u8], lanes: &mut [u8])
        requires stations { length stations.now ≡ self.now.tables.now.stations }
        requires lanes { length lanes.old ≡ vec_len self.now.tables.now.lanes }
        ensures all { length lanes.new ≡ length lanes.old }
        ensures each { (e : ℕ) → e < vec_len self.now.tables.now.lanes → slice_index lanes.new e ≡ cut_byte (meaning_in self.now.tables.now) (byte_near stations.now) (marks_in self.now.labels.now) e }
    {
        for (lane, byte) in lanes.iter_mut().enumerate() {
            *byte = self.side_byte(stations, lane);
        }
    }
}
