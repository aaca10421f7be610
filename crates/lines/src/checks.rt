// What a line is made from, judged in order.
ghost use Rattle.std.specs.Prelude.{◌≡◌, length, nat_le};
ghost use Rattle.std.specs.List.{list_all};
ghost use Rattle.plantformat.specs.Numbers.{top_lane};
ghost use Rattle.linefloor.specs.Line.{grades_fall};
ghost use Rattle.lines.specs.Made.{ranged, grade_of, line_refusal, line_judged};

use plant::{Law, Layer, MOST_LANES, MOST_ON_SIDE, MOST_STATIONS, Reason, Refusal};
use plantformat::TOP_LANE;

// A refusal of a line, which has no place.
fn refused(reason: Reason) -> Refusal
    ensures { result ≡ line_refusal reason }
{
    Refusal {
        layer: Layer::Line,
        ..Refusal::new(reason, 0)
    }
}

// There are two stations at least and not too many, and one lane to the next station at least and not too many.
fn in_range(stations: usize, between: usize) -> bool
    ensures { result ≡ ranged stations between }
{
    (2..=MOST_STATIONS).contains(&stations) && (1..=MOST_ON_SIDE).contains(&between)
}

// No grade is too high.
fn are_low(grades: &[u32]) -> bool
    ensures { result ≡ list_all (λ grade. nat_le grade top_lane) grades.now }
{
    grades.iter().all(|grade| *grade <= TOP_LANE)
}

// No grade is above the one before.
fn fall(grades: &[u32]) -> bool
    ensures { result ≡ grades_fall (length grades.now) (grade_of grades.now) }
{
    grades.is_sorted_by(|before, after| after <= before)
}

// The verdict on what a line is made from.
#[tactic(auto, using(crate::proofs::Grades::low_all))]
pub(crate) fn check_line(stations: usize, between: usize, grades: &[u32]) -> Result<(), Refusal>
    ensures { result ≡ line_judged stations between grades.now }
{
    if !in_range(stations, between) {
        return Err(refused(Reason::Range));
    }
    if grades.len() != between {
        return Err(refused(Reason::Size));
    }
    if (stations - 1) * between > MOST_LANES {
        return Err(refused(Reason::TooMany));
    }
    if !are_low(grades) {
        return Err(refused(Reason::Range));
    }
    if !fall(grades) {
        return Err(refused(Reason::Law(Law::Bends)));
    }
    Ok(())
}
