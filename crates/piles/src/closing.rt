// Closings: positions that are taken out of the sets of their sides.
ghost use Rattle.std.specs.Prelude.{◌≡◌, ℕ, ◌^◌, ◌<◌, refl, replicate};
ghost use Rattle.polymatroid.specs.Kinds.{kept};
ghost use Rattle.layers.specs.Meanings.{with_closings, listed};
ghost use Rattle.layers.proofs.Lawful.{closings_lawful};
ghost use Rattle.piles.specs.Settings.{close_judged, closed_after};

use crate::cover::{Cover, Covered};
use crate::refusals::{MOST_SIDES, check_closing};
use plant::{OffFloor, Plant, Refusal};

// The closed positions of each side.
#[derive(Clone, Copy)]
pub struct Closings {
    // for each side the code of the set of its closed positions
    closed: [usize; MOST_SIDES],
}

// A plant some of whose positions are closed.
pub type Closing<P> = Covered<P, Closings>;

impl Closings {
    // Every position is open.
    pub fn none() -> Closings
        ensures { result.closed ≡ replicate 64 0 }
    {
        Closings {
            closed: [0; MOST_SIDES],
        }
    }

    // Closes a position of a side of the plant. One that is closed stays so.
    pub fn close<P: Plant>(
        &mut self,
        plant: &P,
        side: usize,
        position: usize,
    ) -> Result<(), Refusal>
        ensures judged { result ≡ close_judged (P.meaning plant.now).floor side position }
        ensures closed { self.new.closed ≡ closed_after (P.meaning plant.now).floor side position self.old.closed }
    {
        check_closing(plant, side, position)?;
        self.closed[side] |= 1 << position;
        Ok(())
    }

    // The set without the closed positions of the side.
    #[tactic(auto, using(layers::proofs::Codes::open_is_kept))]
    fn open_part(&self, side: usize, set: usize) -> usize
        requires { side < 64 }
        ensures { (k : ℕ) → set < 2 ^ k → result ≡ kept k (listed self.now.closed side) set }
    {
        set & !self.closed[side]
    }
}

impl Cover for Closings {
    ghost covered = { λ c. with_closings (listed c.closed) };

    ghost same_floor = { λ c M. refl };

    ghost stays_lawful = { λ c. closings_lawful (listed c.closed) };

    #[tactic(auto, using(floor::proofs::Places::side_again, polymatroid::proofs::Layers::kept_below), unfolding(polymatroid::specs::Kinds::closing))]
    fn cap<P: Plant>(&self, below: &P, side: usize, set: usize) -> Result<u32, OffFloor> {
        let width = below.width(side)?;
        if set >= 1 << width {
            return Err(OffFloor);
        }
        below.cap(side, self.open_part(side, set))
    }
}

impl<P: Plant> Closing<P> {
    // The plant with every position open.
    pub fn new(below: P) -> Closing<P>
        ensures below { result.below ≡ below }
        ensures closed { result.cover.closed ≡ replicate 64 0 }
    {
        Covered {
            below,
            cover: Closings::none(),
        }
    }

    // Closes a position of a side. One that is closed stays so.
    pub fn close(&mut self, side: usize, position: usize) -> Result<(), Refusal>
        ensures judged { result ≡ close_judged (P.meaning self.old.below).floor side position }
        ensures below { self.new.below ≡ self.old.below }
        ensures closed { self.new.cover.closed ≡ closed_after (P.meaning self.old.below).floor side position self.old.cover.closed }
    {
        self.cover.close(&self.below, side, position)
    }
}
