// Making a line.
ghost use Rattle.std.specs.Prelude.{◌≡◌, length, Ok};
ghost use Rattle.lines.specs.Made.{line_judged, IsLine, IsEmpty, LineMade};

use crate::checks::check_line;
use crate::line_plant::LinePlant;
use arrayvec::ArrayVec;
use plant::Refusal;

impl LinePlant {
    // The line that was accepted.
    fn accepted(stations: usize, grades: &[u32]) -> LinePlant
        requires { line_judged stations (length grades.now) grades.now ≡ Ok tt }
        ensures { IsLine stations (length grades.now) grades.now result }
    {
        LinePlant {
            stations,
            grades: ArrayVec::try_from(grades).unwrap(),
        }
    }

    // The empty floor: two stations, stock 0, despatch 1, no lane.
    #[tactic(auto, unfolding(linefloor::specs::Line::grades_low, linefloor::specs::Line::grades_fall, polymatroid::specs::Tables::every))]
    fn empty() -> LinePlant
        ensures { IsEmpty result }
    {
        LinePlant {
            stations: 2,
            grades: ArrayVec::new(),
        }
    }
}

// A line of stations, as many lanes from each to the next as there are grades, together with the verdict on the numbers.
// The plant of a refused line is the empty floor.
pub fn make_line(
    stations: usize,
    between: usize,
    grades: &[u32],
) -> (LinePlant, Result<(), Refusal>)
    ensures judged { result.1 ≡ line_judged stations between grades.now }
    ensures made { LineMade stations between grades.now result.0 result.1 }
{
    match check_line(stations, between, grades) {
        Ok(()) => (LinePlant::accepted(stations, grades), Ok(())),
        Err(refusal) => (LinePlant::empty(), Err(refusal)),
    }
}
