// What may be set over a plant, and how the rest is refused.
ghost use Rattle.std.specs.Prelude.{◌≡◌};
ghost use Rattle.piles.specs.Settings.{close_judged, ceiling_judged};

use plant::{MOST_STATIONS, Plant, Reason, Refusal, TOP_CAP};

// A floor has at most this many sides, two at each station.
pub const MOST_SIDES: usize = 2 * MOST_STATIONS;

// Whether a position of a side may be closed: it has to be on the floor.
pub fn check_closing<P: Plant>(plant: &P, side: usize, position: usize) -> Result<(), Refusal>
    ensures { result ≡ close_judged (P.meaning plant.now).floor side position }
{
    plant
        .lane_at(side, position)
        .map_err(|_| Refusal::new(Reason::OffFloor, 0))?;
    Ok(())
}

// Whether a side may have a ceiling: the side has to be on the floor, and the ceiling no higher than every cap.
pub fn check_ceiling<P: Plant>(plant: &P, side: usize, ceiling: u32) -> Result<(), Refusal>
    ensures { result ≡ ceiling_judged (P.meaning plant.now).floor side ceiling }
{
    plant
        .width(side)
        .map_err(|_| Refusal::new(Reason::OffFloor, 0))?;
    if ceiling > TOP_CAP {
        return Err(Refusal::new(Reason::Ceiling, 0));
    }
    Ok(())
}
