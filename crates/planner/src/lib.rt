// The calls on a plan, on the tables of its plant: loads, steps, runs and readings. Each contract says that the call does what the
// crate calls defines for it, over the floor and the caps that the tables mean, and leaves the tables as they are. All memory is
// taken when a plan is opened.
#![tactic(auto)]

ghost use Rattle.std.specs.Prelude.{◌≡◌, ℕ, map, IfOk, vec_len, slice_index};
ghost use Rattle.floor.specs.Meaning.{Lawful};
ghost use Rattle.labelling.specs.Steps.{shifted};
ghost use Rattle.labels.specs.Labels.{signed_state};
ghost use Rattle.tables.specs.Tables.{meaning_in};
ghost use Rattle.calls.specs.Events.{at, loaded, stepped, ran, told_total, told_moves, told_trays, told_cut};
ghost use Rattle.calls.specs.Does.{counted};
ghost use Rattle.planner.specs.Planning.{Opened, Movable, Did};

use calls::Unfit;
use labels::SignedLane;
use loads::{is_plan, total_of};
use moves::make_move;
use searches::Search;
use std::alloc::{AllocError, Global};
use tables::{LoadedFloor, Tables};

mod planner;

pub use planner::Planner;

// What a run did: how many moves it made, and whether the plan was then finished.
#[derive(Clone, Copy, Debug, PartialEq, Eq)]
pub struct Ran {
    pub moves: u64,
    pub finished: bool,
}

// Moves an amount of trays along a path.
fn move_trays(path: &[SignedLane], amount: u32, trays: &mut Vec<u32>)
    requires { Movable path.now amount trays.old.items }
    ensures len { vec_len trays.new ≡ vec_len trays.old }
    ensures each { (e : ℕ) → slice_index trays.new.items e ≡ shifted amount (map signed_state path.now) (at trays.old.items) e }
{
    make_move(path, amount, trays.as_mut_slice());
}

// A move more. No plan makes so many that the count stops.
fn one_more(moves: u64) -> u64
    ensures { result ≡ counted moves }
{
    moves.saturating_add(1)
}

impl Planner {
    // The trays on the lanes of the floor.
    fn floor(&self) -> LoadedFloor<'_>
        ensures tables { result.tables.now ≡ self.now.tables }
        ensures trays { result.trays.now ≡ self.now.trays.items }
    {
        LoadedFloor {
            tables: &self.tables,
            trays: self.trays.as_slice(),
        }
    }

    // A plan with no trays, on the tables of a lawful plant.
    pub fn open(heap: Global, tables: Tables) -> Result<Planner, AllocError>
        requires { Lawful (meaning_in tables) }
        ensures { IfOk result (λ p. Opened tables p) }
    {
        let lanes = tables.lanes.len();
        let stations = tables.stations;
        let trays = vec![in heap; 0; lanes]?;
        let search = Search::new(heap, lanes)?;
        let cut_lanes = vec![in heap; 0; lanes]?;
        let cut_stations = vec![in heap; 0; stations]?;
        Ok(Planner {
            tables,
            trays,
            search,
            cut_lanes,
            cut_stations,
            moves: 0,
            finished: false,
        })
    }

    // Replaces the trays, if there is a number for each lane and they are a plan.
    pub fn load(&mut self, given: &[u32]) -> Result<(), Unfit>
        ensures { Did self.old (loaded given.now result) self.new }
    {
        if given.len() != self.tables.lanes.len() {
            return Err(Unfit::Length);
        }
        let floor = LoadedFloor {
            tables: &self.tables,
            trays: given,
        };
        if !is_plan(&floor) {
            return Err(Unfit::Load);
        }
        self.trays.copy_from_slice(given);
        self.moves = 0;
        self.finished = false;
        Ok(())
    }

    // Makes the move of a step, and answers its amount and how many lanes it has; where there is none, the plan is finished.
    pub fn step(&mut self) -> Option<(u32, usize)>
        ensures { Did self.old (stepped result) self.new }
    {
        if self.finished {
            return None;
        }
        let floor = LoadedFloor {
            tables: &self.tables,
            trays: self.trays.as_slice(),
        };
        let Some(amount) = self.search.find(&floor) else {
            self.search.show_cut(
                &self.tables,
                self.cut_lanes.as_mut_slice(),
                self.cut_stations.as_mut_slice(),
            );
            self.finished = true;
            return None;
        };
        move_trays(self.search.path.as_slice(), amount, &mut self.trays);
        self.moves = one_more(self.moves);
        Some((amount, self.search.path.len()))
    }

    // Makes as many steps as the budget has, but stops after one that finds the plan finished.
    pub fn run(&mut self, budget: u64) -> Ran
        ensures { Did self.old (ran budget result.moves result.finished) self.new }
    {
        for moves in 0..budget {
            let Some((_, _)) = self.step() else {
                return Ran {
                    moves,
                    finished: self.finished,
                };
            };
        }
        Ran {
            moves: budget,
            finished: self.finished,
        }
    }

    // Whether a step has found that no move is left.
    pub fn is_finished(&self) -> bool
        ensures { result ≡ self.now.finished }
    {
        self.finished
    }

    // How many trays leave the stock.
    pub fn total(&self) -> u64
        ensures { Did self.now (told_total result) self.now }
    {
        total_of(&self.floor())
    }

    // How many moves were made since the opening or the last accepted load.
    pub fn moves(&self) -> u64
        ensures { Did self.now (told_moves result) self.now }
    {
        self.moves
    }

    // Writes the trays of each lane into the buffer.
    pub fn trays(&self, out: &mut [u32]) -> Result<(), Unfit>
        ensures { Did self.now (told_trays out.old result out.new) self.now }
    {
        if out.len() != self.trays.len() {
            return Err(Unfit::Length);
        }
        out.copy_from_slice(self.trays.as_slice());
        Ok(())
    }

    // Writes the cut of a finished plan into the buffers: a byte for each lane and one for each station.
    pub fn cut(&self, lanes: &mut [u8], stations: &mut [u8]) -> Result<(), Unfit>
        ensures { Did self.now (told_cut lanes.old stations.old result lanes.new stations.new) self.now }
    {
        if !self.finished {
            return Err(Unfit::Unfinished);
        }
        if lanes.len() != self.cut_lanes.len() || stations.len() != self.cut_stations.len() {
            return Err(Unfit::Length);
        }
        lanes.copy_from_slice(self.cut_lanes.as_slice());
        stations.copy_from_slice(self.cut_stations.as_slice());
        Ok(())
    }
}
