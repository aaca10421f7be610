// How a plant and a refusal are shown to a reader, as lines of text. A plant is asked through the trait alone, so any plant can be
// shown; the lines are those that specs/Lines.antt computes from its meaning. The listing asks only about what is on the floor, where
// no question is refused, so each answer is unwrapped, and the proofs show that it is there. Where memory runs out there is no listing.
#![tactic(auto, using(crate::proofs::Each::by_parts))]

ghost use Rattle.std.specs.Prelude.{◌≡◌, ◌<◌, IfOk, string_bytes};
ghost use Rattle.floor.specs.Floor.{sides};
ghost use Rattle.listing.specs.Lines.{Adds, floor_line, lane_lines, side_shown, side_lines, plant_lines, refusal_line};

use plant::{Plant, Refusal};
use std::alloc::{AllocError, Global};

// A plant's floor, lanes and sides, with every cap.
pub fn show_plant<P: Plant>(heap: Global, plant: &P) -> Result<String, AllocError>
    ensures { IfOk result (λ text. string_bytes text ≡ plant_lines (P.meaning plant.now)) }
{
    let mut text = String::new(heap);
    add_floor(&mut text, plant)?;
    add_lanes(&mut text, plant)?;
    add_sides(&mut text, plant)?;
    Ok(text)
}

// The one line that tells why a source, as `file`, is refused. A source may be any bytes, so the line is bytes and no text.
pub fn show_refusal(heap: Global, source: &[u8], refusal: Refusal) -> Result<Vec<u8>, AllocError>
    ensures { IfOk result (λ line. line.items ≡ refusal_line source.now refusal) }
{
    let words = format!(in heap; " {refusal}\n")?;
    let mut line = b"refused ".to_vec(heap)?;
    line.extend_from_slice(source)?;
    line.extend_from_slice(words.as_bytes())?;
    Ok(line)
}

// The line of the floor.
fn add_floor<P: Plant>(text: &mut String, plant: &P) -> Result<(), AllocError>
    ensures { Adds (floor_line (P.meaning plant.now).floor) (string_bytes text.old) (string_bytes text.new) result }
{
    writeln!(
        text,
        "stations {} lanes {} stock {} despatch {}",
        plant.stations(),
        plant.lanes(),
        plant.stock(),
        plant.despatch()
    )
}

// A line for each lane.
fn add_lanes<P: Plant>(text: &mut String, plant: &P) -> Result<(), AllocError>
    ensures { Adds (lane_lines (P.meaning plant.now).floor) (string_bytes text.old) (string_bytes text.new) result }
{
    for lane in 0..plant.lanes() {
        let (from, to) = plant.ends(lane).unwrap();
        writeln!(text, "lane {lane} from {from} to {to}")?;
    }
    Ok(())
}

// A line for each side that has lanes.
fn add_sides<P: Plant>(text: &mut String, plant: &P) -> Result<(), AllocError>
    ensures { Adds (side_lines (P.meaning plant.now)) (string_bytes text.old) (string_bytes text.new) result }
{
    for side in 0..2 * plant.stations() {
        add_side(text, plant, side)?;
    }
    Ok(())
}

// The line of a side of the floor, or nothing where the side has no lanes: its lanes by position, then the caps of their sets in order
// of code.
fn add_side<P: Plant>(text: &mut String, plant: &P, side: usize) -> Result<(), AllocError>
    requires { side < sides (P.meaning plant.now).floor }
    ensures { Adds (side_shown (P.meaning plant.now) side) (string_bytes text.old) (string_bytes text.new) result }
{
    let width = plant.width(side).unwrap();
    if width == 0 {
        return Ok(());
    }
    write!(text, "side {side} lanes")?;
    for position in 0..width {
        write!(text, " {}", plant.lane_at(side, position).unwrap())?;
    }
    write!(text, " caps")?;
    let sets = 1usize << width;
    for set in 0..sets {
        write!(text, " {}", plant.cap(side, set).unwrap())?;
    }
    writeln!(text)
}
