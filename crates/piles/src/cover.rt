// A plant under a cover, which changes its caps.
ghost use Rattle.std.specs.Prelude.{◌≡◌};
ghost use Rattle.floor.specs.Meaning.{Meaning, Lawful};
ghost use Rattle.plant.specs.Questions.{cap_asked};

use plant::{OffFloor, Plant};

// What may lie over a plant: it changes the caps of the sides and leaves the floor.
pub trait Cover {
    // What a plant means under the cover.
    ghost covered: { Self → Meaning → Meaning };

    // A lawful plant stays lawful.
    ghost stays_lawful: { (c : Self) (M : Meaning) → Lawful M → Lawful (covered c M) };

    // The cap of a set of lanes of a side under the cover.
    fn cap<P: Plant>(&self, below: &P, side: usize, set: usize) -> Result<u32, OffFloor>
        ensures { result ≡ cap_asked (covered self.now (P.meaning below.now)) side set };

    // The floor stays.
    ghost same_floor: { (c : Self) (M : Meaning) → (covered c M).floor ≡ M.floor };
}

// A plant under a cover, which answers the questions about the floor as the plant does and those about the caps by the cover.
#[derive(Drop)]
pub struct Covered<P: Plant, C: Cover> {
    pub below: P,
    pub cover: C,
}

impl<P: Plant, C: Cover> Plant for Covered<P, C> {
    ghost meaning = { λ s. C.Cover.covered s.cover (P.Plant.meaning s.below) };

    ghost lawful = { λ s. C.Cover.stays_lawful s.cover (P.Plant.meaning s.below) (P.Plant.lawful s.below) };

    fn stations(&self) -> usize {
        self.below.stations()
    }

    fn lanes(&self) -> usize {
        self.below.lanes()
    }

    fn stock(&self) -> usize {
        self.below.stock()
    }

    fn despatch(&self) -> usize {
        self.below.despatch()
    }

    fn ends(&self, lane: usize) -> Result<(usize, usize), OffFloor> {
        self.below.ends(lane)
    }

    fn width(&self, side: usize) -> Result<usize, OffFloor> {
        self.below.width(side)
    }

    fn lane_at(&self, side: usize, position: usize) -> Result<usize, OffFloor> {
        self.below.lane_at(side, position)
    }

    fn cap(&self, side: usize, set: usize) -> Result<u32, OffFloor> {
        self.cover.cap(&self.below, side, set)
    }
}
