// Plans: trays on the lanes of a plant, made more move by move until no plan carries more.
//
// A plan takes its plant, asks it every question once, and answers loads, steps, runs and readings in any order. The contract of
// each call says exactly what it answers and leaves, and that the plan keeps the promise of the crate calls with this call too,
// whatever it met before; `answers` says the whole promise of every list of calls. All memory is taken when a plan is opened.
#![tactic(auto)]

ghost use Rattle.std.specs.Prelude.{◌≡◌, IfOk, IfErr};
ghost use Rattle.calls.specs.Events.{loaded, stepped, ran, told_total, told_moves, told_trays, told_cut};
ghost use Rattle.plan.specs.Plans.{Planned, Opens, Meets};

use calls::Unfit;
use planner::{Planner, Ran};
use plant::Plant;
use std::alloc::{AllocError, AllocFailed, Global};
use tables::tabulate;

mod journal;
mod plan;

pub use journal::{Answer, Call, answers};
pub use plan::Plan;

// A plan with no trays, on the tables of the plant.
fn plan_on<P: Plant>(heap: Global, plant: &P) -> Result<Planner, AllocError>
    ensures { IfOk result (λ p. Planned (P.meaning plant.now) p) }
{
    let tables = tabulate(heap, plant)?;
    Planner::open(heap, tables)
}

impl<P: Plant> Plan<P> {
    // A plan with no trays above the plant, or the plant again where there is no memory for one.
    pub fn open(heap: Global, plant: P) -> Result<Plan<P>, AllocFailed<P>>
        ensures opens { IfOk result (λ p. Opens P.meaning plant p) }
        ensures refused { IfErr result (λ x. x.value ≡ plant) }
    {
        match plan_on(heap, &plant) {
            Ok(planner) => Ok(Plan { plant, planner }),
            Err(_) => Err(AllocFailed { value: plant }),
        }
    }

    // Replaces the trays by those given, one number for each lane, and forgets the moves and the finished mark.
    pub fn load(&mut self, given: &[u32]) -> Result<(), Unfit>
        ensures { Meets P.meaning self.old (loaded given.now result) self.new }
    {
        self.planner.load(given)
    }

    // Makes one move and answers its amount and how many lanes it has, or finds the plan finished.
    pub fn step(&mut self) -> Option<(u32, usize)>
        ensures { Meets P.meaning self.old (stepped result) self.new }
    {
        self.planner.step()
    }

    // Makes as many steps as the budget has, but stops after one that finds the plan finished.
    pub fn run(&mut self, budget: u64) -> Ran
        ensures { Meets P.meaning self.old (ran budget result.moves result.finished) self.new }
    {
        self.planner.run(budget)
    }

    // How many trays leave the stock.
    pub fn total(&self) -> u64
        ensures { Meets P.meaning self.now (told_total result) self.now }
    {
        self.planner.total()
    }

    // How many moves were made since the opening or the last accepted load.
    pub fn moves(&self) -> u64
        ensures { Meets P.meaning self.now (told_moves result) self.now }
    {
        self.planner.moves()
    }

    // Writes the trays of each lane into the buffer.
    pub fn trays(&self, out: &mut [u32]) -> Result<(), Unfit>
        ensures { Meets P.meaning self.now (told_trays out.old result out.new) self.now }
    {
        self.planner.trays(out)
    }

    // Writes the cut of a finished plan into the buffers: for each lane `U`, `L` or `-`, for each station 1 near or 0 far.
    pub fn cut(&self, lanes: &mut [u8], stations: &mut [u8]) -> Result<(), Unfit>
        ensures { Meets P.meaning self.now (told_cut lanes.old stations.old result lanes.new stations.new) self.now }
    {
        self.planner.cut(lanes, stations)
    }
}
