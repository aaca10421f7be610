// Whole lists of calls, and the answers to them.
ghost use Rattle.std.specs.Prelude.{◌≡◌, IfOk, OnErr};
ghost use Rattle.calls.specs.Events.{Event};
ghost use Rattle.plan.specs.Plans.{Meets};
ghost use Rattle.plan.specs.Journal.{Recorded, Replays, Answered};

use crate::plan::Plan;
use calls::Unfit;
use planner::Ran;
use plant::Plant;
use std::alloc::{AllocError, Global};

// A call, with the numbers and the buffers that it is given.
#[derive(Drop)]
pub enum Call {
    Load(Vec<u32>),
    Step,
    Run(u64),
    Total,
    Moves,
    Trays(Vec<u32>),
    Cut(Vec<u8>, Vec<u8>),
}

// What a call answered; a reading comes with its buffers.
#[derive(Drop)]
pub enum Answer {
    Loaded(Result<(), Unfit>),
    Stepped(Option<(u32, usize)>),
    Ran(Ran),
    Total(u64),
    Moves(u64),
    Trays(Result<(), Unfit>, Vec<u32>),
    Cut(Result<(), Unfit>, Vec<u8>, Vec<u8>),
}

impl<P: Plant> Plan<P> {
    // Reads the trays into a buffer.
    fn read_trays(&self, mut buffer: Vec<u32>) -> Answer
        ensures { (e : Event) × Recorded (Call.Trays buffer) result e × Meets P.meaning self.now e self.now }
    {
        let read = self.trays(buffer.as_mut_slice());
        Answer::Trays(read, buffer)
    }

    // Reads the cut into buffers.
    fn read_cut(&self, mut lanes: Vec<u8>, mut stations: Vec<u8>) -> Answer
        ensures { (e : Event) × Recorded (Call.Cut lanes stations) result e × Meets P.meaning self.now e self.now }
    {
        let read = self.cut(lanes.as_mut_slice(), stations.as_mut_slice());
        Answer::Cut(read, lanes, stations)
    }

    // Any call.
    pub fn call(&mut self, call: Call) -> Answer
        ensures { (e : Event) × Recorded call result e × Meets P.meaning self.old e self.new }
    {
        match call {
            Call::Load(given) => Answer::Loaded(self.load(given.as_slice())),
            Call::Step => Answer::Stepped(self.step()),
            Call::Run(budget) => Answer::Ran(self.run(budget)),
            Call::Total => Answer::Total(self.total()),
            Call::Moves => Answer::Moves(self.moves()),
            Call::Trays(buffer) => self.read_trays(buffer),
            Call::Cut(lanes, stations) => self.read_cut(lanes, stations),
        }
    }

    // The calls, one after another, and the answers to them.
    pub fn replay(&mut self, heap: Global, calls: Vec<Call>) -> Result<Vec<Answer>, AllocError>
        ensures told { IfOk result (λ told. Replays P.meaning self.old calls.items told.items self.new) }
        ensures same { OnErr result (self.new ≡ self.old) }
    {
        let mut told = Vec::with_capacity(heap, calls.len())?;
        for call in calls {
            told.push_reserved(self.call(call));
        }
        Ok(told)
    }
}

// Opens a plan above the plant and makes the calls on it: whatever they are, the answers keep the promise.
pub fn answers<P: Plant + Drop>(
    heap: Global,
    plant: P,
    calls: Vec<Call>,
) -> Result<Vec<Answer>, AllocError>
    ensures { IfOk result (λ told. Answered (P.meaning plant) calls.items told.items) }
{
    let mut plan = Plan::open(heap, plant)?;
    plan.replay(heap, calls)
}
