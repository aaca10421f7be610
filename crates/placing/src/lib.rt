// Whether a record may be added to a plant: the checks of the floor layer, in the order in which a file is judged. A lane leads from one
// station to another and is not one too many; a side has no second limit, and the numbers of a limit keep the rules and the laws.
//
// `fits` takes a record whose numbers are in their ranges, and its answer is equal to the definition of the format.
#![tactic(auto)]

ghost use Rattle.std.specs.Prelude.{◌≡◌, ◌*◌, ◌<◌, true, nat_le};
ghost use Rattle.floor.specs.Numbers.{most_on_side};
ghost use Rattle.plantformat.specs.Rules.{lane_leads, lane_ranged};
ghost use Rattle.plantformat.specs.Judge.{crowded, lane_placed, placed, width_of};
ghost use Rattle.answers.specs.Content.{content};
ghost use Rattle.records.specs.Parts.{limit_part, record_part};
ghost use Rattle.limits.specs.Told.{told_side, allowed};
ghost use Rattle.placing.specs.Ranges.{Ranged};

use answers::FilePlant;
use limits::{Limit, check_limit};
use plant::{MOST_LANES, MOST_ON_SIDE};
use plantformat::{FloorFault, Lane};
use records::Record;

// A lane has two different ends, and does not enter the stock or leave the despatch.
#[tactic(auto, unfolding(plantformat::specs::Rules::lane_leads))]
fn leads(plant: &FilePlant, lane: Lane) -> bool
    ensures { result ≡ lane_leads plant.now.head lane }
{
    lane.from != lane.to && lane.to != plant.head.stock && lane.from != plant.head.despatch
}

// A side has as many lanes as it may have.
fn is_full(plant: &FilePlant, side: usize) -> bool
    requires { side < 2 * plant.now.head.stations }
    ensures { result ≡ nat_le most_on_side (width_of (content plant.now) side) }
{
    plant.lanes_on(side).width() >= MOST_ON_SIDE
}

// One lane more would be too many, on the floor or on one of its two sides.
#[tactic(auto, using(crate::proofs::Crowds::stations_few), unfolding(plantformat::specs::Judge::crowded))]
fn is_crowded(plant: &FilePlant, lane: Lane) -> bool
    requires from { lane.from < plant.now.head.stations }
    requires to { lane.to < plant.now.head.stations }
    ensures { result ≡ crowded plant.now.head plant.now.lanes.items lane }
{
    plant.lanes.len() >= MOST_LANES
        || is_full(plant, 2 * lane.from)
        || is_full(plant, 2 * lane.to + 1)
}

// Whether a lane may be added.
#[tactic(auto, unfolding(plantformat::specs::Rules::lane_ranged))]
fn lane_fits(plant: &FilePlant, lane: Lane, at: usize) -> Result<(), FloorFault>
    requires { lane_ranged plant.now.head.stations lane ≡ true }
    ensures { result ≡ allowed (lane_placed (content plant.now) at lane) }
{
    if !leads(plant, lane) {
        return Err(FloorFault::Ends { at });
    }
    if is_crowded(plant, lane) {
        return Err(FloorFault::TooMany { at });
    }
    Ok(())
}

// Whether a limit may be added.
#[tactic(auto, using(crate::proofs::Limited::limit_placed_is))]
fn limit_fits<'a>(plant: &FilePlant<'a>, limit: Limit<'a>, at: usize) -> Result<(), FloorFault>
    requires { told_side limit < 2 * plant.now.head.stations }
    ensures { result ≡ allowed (placed (content plant.now) at (limit_part limit.entry)) }
{
    let side = limit.side();
    if plant.limit_of(side).is_some() {
        return Err(FloorFault::SecondLimit { at });
    }
    check_limit(limit, plant.lanes_on(side).width(), at)
}

// Whether a record may be added, which lies at the place `at` of the file.
pub fn fits<'a>(plant: &FilePlant<'a>, record: Record<'a>, at: usize) -> Result<(), FloorFault>
    requires { Ranged plant.now.head.stations (record_part «record») }
    ensures { result ≡ allowed (placed (content plant.now) at (record_part «record».entry)) }
{
    match record {
        Record::Lane(lane) => lane_fits(plant, lane, at),
        Record::Limit(limit) => limit_fits(plant, limit, at),
    }
}
