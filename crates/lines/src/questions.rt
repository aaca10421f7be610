// The answers of a line plant.
ghost use Rattle.std.specs.Prelude.{◌≡◌, ℕ, ◌*◌, ◌^◌, ◌<◌, ◌≤◌, slice_index, sum, IfOk};
ghost use Rattle.arrayvec.specs.ArrayVec.{array_vec_len};
ghost use Rattle.polymatroid.specs.Kinds.{graded};
ghost use Rattle.floor.specs.Floor.{end_of, station_of, width as side_width, lane_at};
ghost use Rattle.plant.specs.Questions.{width_asked};
ghost use Rattle.linefloor.proofs.Lawful.{lines_are_lawful};
ghost use Rattle.lines.specs.Made.{meant};

use crate::line_plant::LinePlant;
use plant::{OffFloor, Plant};
use setcodes::size;

// The sum of these grades.
fn sum_of(grades: &[u32]) -> u32
    requires { sum grades.now < 2 ^ 32 }
    ensures { result ≡ sum grades.now }
{
    grades.iter().sum()
}

impl LinePlant {
    // How many lanes lead from each station to the next.
    fn between(&self) -> usize
        ensures { result ≡ array_vec_len self.now.grades }
    {
        self.grades.len()
    }

    // How many lanes a side has, if it is on the floor: none enter the first station, and none leave the last.
    #[tactic(auto, using(crate::proofs::Sides::width_first, crate::proofs::Sides::width_bare, crate::proofs::Sides::width_whole))]
    fn lanes_on(&self, side: usize) -> Result<usize, OffFloor>
        ensures all { result ≡ width_asked (meant self.now).floor side }
        ensures few { IfOk result (λ width. width ≤ array_vec_len self.now.grades) }
    {
        if side / 2 >= self.stations {
            return Err(OffFloor);
        }
        if side == 1 || side == 2 * (self.stations - 1) {
            return Ok(0);
        }
        Ok(self.between())
    }

    // The lane at a position of a side: the lanes into a station are those out of the one before.
    #[tactic(auto, using(crate::proofs::Sides::some_lanes, crate::proofs::Sides::row_there, crate::proofs::Sides::lane_is))]
    fn lane_on(&self, side: usize, position: usize) -> usize
        requires side { side < 2 * self.now.stations }
        requires there { position < side_width (meant self.now).floor side }
        ensures { result ≡ lane_at (meant self.now).floor (end_of side) (station_of side) position }
    {
        (side / 2 - side % 2) * self.between() + position
    }

    // The sum of as many first grades as the set has members.
    #[tactic(auto, using(limits::proofs::FirstGrades::graded_is, crate::proofs::Grades::first_low, polymatroid::proofs::Grades::size_top))]
    fn grades_cap(&self, set: usize) -> u32
        requires { set < 2 ^ array_vec_len self.now.grades }
        ensures { (k : ℕ) → k ≤ array_vec_len self.now.grades → set < 2 ^ k → result ≡ graded (λ j. slice_index self.now.grades.items j) k set }
    {
        sum_of(&self.grades[..size(set)])
    }
}

impl Plant for LinePlant {
    ghost meaning = { meant };

    ghost lawful = { λ p. lines_are_lawful p.stations (array_vec_len p.grades) (λ j. slice_index p.grades.items j) p.two p.few p.narrow p.short p.low p.fall };

    fn stations(&self) -> usize {
        self.stations
    }

    fn lanes(&self) -> usize {
        (self.stations - 1) * self.between()
    }

    fn stock(&self) -> usize {
        0
    }

    fn despatch(&self) -> usize {
        self.stations - 1
    }

    fn ends(&self, lane: usize) -> Result<(usize, usize), OffFloor> {
        if lane >= self.lanes() {
            return Err(OffFloor);
        }
        let from = lane / self.between();
        Ok((from, from + 1))
    }

    fn width(&self, side: usize) -> Result<usize, OffFloor> {
        self.lanes_on(side)
    }

    fn lane_at(&self, side: usize, position: usize) -> Result<usize, OffFloor> {
        let width = self.lanes_on(side)?;
        if position >= width {
            return Err(OffFloor);
        }
        Ok(self.lane_on(side, position))
    }

    fn cap(&self, side: usize, set: usize) -> Result<u32, OffFloor> {
        let width = self.lanes_on(side)?;
        if set >= 1 << width {
            return Err(OffFloor);
        }
        Ok(self.grades_cap(set))
    }
}
