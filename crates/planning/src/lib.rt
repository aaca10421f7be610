// A plan that carries the most, as lines of text: a plan is opened above any plant, run until it is finished, and read. What is told
// of it is said in specs/Best.antt in the words of the subject: right moves made it, no plan carries more, and the cut shows why.
#![tactic(auto)]

ghost use Rattle.std.specs.Prelude.{◌≡◌, IfOk};
ghost use Rattle.planning.specs.Best.{EndedPlan, BestLines};

use plan::Plan;
use planlines::{Told, show_plan};
use plant::Plant;
use std::alloc::{AllocError, Global};

// More steps than any plan takes.
const ENOUGH: u64 = u64::MAX;

// A plan above the plant that was run until it was finished.
fn ended_plan<P: Plant + Drop>(heap: Global, plant: P) -> Result<Plan<P>, AllocError>
    ensures { IfOk result (λ p. EndedPlan P.meaning plant p) }
{
    let mut plan = Plan::open(heap, plant)?;
    let _ = plan.run(ENOUGH);
    Ok(plan)
}

// The listing of a plan above the plant that carries the most.
pub fn plan_lines<P: Plant + Drop>(heap: Global, plant: P) -> Result<Vec<u8>, AllocError>
    ensures { IfOk result (λ lines. BestLines (P.meaning plant) lines.items) }
{
    let mut trays = vec![in heap; 0u32; plant.lanes()]?;
    let mut lanes = vec![in heap; 0u8; plant.lanes()]?;
    let mut stations = vec![in heap; 0u8; plant.stations()]?;
    let plan = ended_plan(heap, plant)?;
    let _ = plan.trays(trays.as_mut_slice());
    let _ = plan.cut(lanes.as_mut_slice(), stations.as_mut_slice());
    show_plan(
        heap,
        &Told {
            total: plan.total(),
            moves: plan.moves(),
            trays: trays.as_slice(),
            lanes: lanes.as_slice(),
            stations: stations.as_slice(),
        },
    )
}
