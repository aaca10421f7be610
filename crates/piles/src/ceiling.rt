// Ceilings: bounds on the caps of sides.
ghost use Rattle.std.specs.Prelude.{◌≡◌, ◌<◌, min, refl, replicate, slice_index};
ghost use Rattle.floor.specs.Numbers.{top_cap};
ghost use Rattle.layers.specs.Meanings.{with_ceilings};
ghost use Rattle.layers.proofs.Lawful.{ceilings_lawful};
ghost use Rattle.piles.specs.Settings.{ceiling_judged, ceilings_after};

use crate::cover::{Cover, Covered};
use crate::refusals::{MOST_SIDES, check_ceiling};
use plant::{OffFloor, Plant, Refusal, TOP_CAP};

// The ceiling of each side.
#[derive(Clone, Copy)]
pub struct Ceilings {
    ceilings: [u32; MOST_SIDES],
}

// A plant whose sides have ceilings.
pub type Ceiling<P> = Covered<P, Ceilings>;

impl Ceilings {
    // No ceiling is lower than every cap may be.
    pub fn none() -> Ceilings
        ensures { result.ceilings ≡ replicate 64 top_cap }
    {
        Ceilings {
            ceilings: [TOP_CAP; MOST_SIDES],
        }
    }

    // Sets the ceiling of a side of the plant, in place of the one that it had.
    pub fn set<P: Plant>(&mut self, plant: &P, side: usize, ceiling: u32) -> Result<(), Refusal>
        ensures judged { result ≡ ceiling_judged (P.meaning plant.now).floor side ceiling }
        ensures ceilings { self.new.ceilings ≡ ceilings_after (P.meaning plant.now).floor side ceiling self.old.ceilings }
    {
        check_ceiling(plant, side, ceiling)?;
        self.ceilings[side] = ceiling;
        Ok(())
    }

    // A cap of the side, no higher than its ceiling.
    fn lowered(&self, side: usize, cap: u32) -> u32
        requires { side < 64 }
        ensures { result ≡ min cap (slice_index self.now.ceilings side) }
    {
        cap.min(self.ceilings[side])
    }
}

impl Cover for Ceilings {
    ghost covered = { λ c. with_ceilings (λ side. slice_index c.ceilings side) };

    ghost same_floor = { λ c M. refl };

    ghost stays_lawful = { λ c. ceilings_lawful (λ side. slice_index c.ceilings side) };

    #[tactic(auto, using(floor::proofs::Places::side_again), unfolding(polymatroid::specs::Kinds::ceiling))]
    fn cap<P: Plant>(&self, below: &P, side: usize, set: usize) -> Result<u32, OffFloor> {
        let cap = below.cap(side, set)?;
        Ok(self.lowered(side, cap))
    }
}

impl<P: Plant> Ceiling<P> {
    // The plant with no ceiling lower than every cap may be.
    pub fn new(below: P) -> Ceiling<P>
        ensures below { result.below ≡ below }
        ensures ceilings { result.cover.ceilings ≡ replicate 64 top_cap }
    {
        Covered {
            below,
            cover: Ceilings::none(),
        }
    }

    // Sets the ceiling of a side, in place of the one that it had.
    pub fn set(&mut self, side: usize, ceiling: u32) -> Result<(), Refusal>
        ensures judged { result ≡ ceiling_judged (P.meaning self.old.below).floor side ceiling }
        ensures below { self.new.below ≡ self.old.below }
        ensures ceilings { self.new.cover.ceilings ≡ ceilings_after (P.meaning self.old.below).floor side ceiling self.old.cover.ceilings }
    {
        self.cover.set(&self.below, side, ceiling)
    }
}
