// A plant that answers from its number of stations and a list of grades.
ghost use Rattle.std.specs.Prelude.{◌≡◌, ◌-◌, ◌*◌, ◌≤◌, true, slice_index};
ghost use Rattle.arrayvec.specs.ArrayVec.{array_vec_len};
ghost use Rattle.floor.specs.Numbers.{most_stations, most_lanes, most_on_side};
ghost use Rattle.linefloor.specs.Line.{grades_low, grades_fall};

use arrayvec::ArrayVec;
use plant::MOST_ON_SIDE;

// A line: as many lanes lead from each station to the next as there are grades.
#[derive(Drop)]
pub struct LinePlant {
    pub(crate) stations: usize,
    pub(crate) grades: ArrayVec<u32, MOST_ON_SIDE>,
    ghost two: { 2 ≤ stations },
    ghost few: { stations ≤ most_stations },
    ghost narrow: { array_vec_len grades ≤ most_on_side },
    ghost short: { (stations - 1) * array_vec_len grades ≤ most_lanes },
    ghost low: { grades_low (array_vec_len grades) (λ j. slice_index grades.items j) ≡ true },
    ghost fall: { grades_fall (array_vec_len grades) (λ j. slice_index grades.items j) ≡ true },
}
