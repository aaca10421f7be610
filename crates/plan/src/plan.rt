// A plan above a plant.
use planner::Planner;
use plant::Plant;

// The plant, which the plan has taken, and what the plan holds besides.
#[derive(Drop)]
pub struct Plan<P: Plant> {
    pub(crate) plant: P,
    pub(crate) planner: Planner,
}
