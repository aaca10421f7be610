// The answers of a file plant.
ghost use Rattle.std.specs.Prelude.{◌≡◌, ◌*◌, ◌<◌, ◌≤◌, map, MatchResult, ◌==◌};
ghost use Rattle.plantformat.specs.Records.{lane_end, limit_of, side_of};
ghost use Rattle.plantformat.proofs.Lawful.{kept_lawful};
ghost use Rattle.answers.specs.Content.{file_meaning};
ghost use Rattle.limits.specs.Told.{told};
ghost use Rattle.answers.specs.Answers.{limit_seen};

use crate::file_plant::FilePlant;
use crate::side_lanes::SideLanes;
use limits::Limit;
use plant::{MOST_ON_SIDE, OffFloor, Plant};
use plantformat::Lane;

// The station at an end of a lane.
fn lane_end(lane: Lane, entering: bool) -> usize
    ensures { result ≡ lane_end entering lane }
{
    if entering { lane.to } else { lane.from }
}

// Whether a limit is for a side.
fn is_for(limit: Limit, side: usize) -> bool
    ensures { result ≡ (side_of (told limit.entry) == side) }
{
    limit.side() == side
}

impl<'a> FilePlant<'a> {
    // The lanes of a side, in lane order.
    pub fn lanes_on(&self, side: usize) -> SideLanes<'_, 'a>
        requires { side < 2 * self.now.head.stations }
        ensures plant { result.plant.now ≡ self.now }
        ensures side { result.side ≡ side }
    {
        let station = side / 2;
        let entering = side % 2 == 1;
        let mut numbers = [0; MOST_ON_SIDE];
        let mut count = 0;
        for (number, lane) in self.lanes.iter().enumerate() {
            if lane_end(*lane, entering) == station {
                numbers[count] = number;
                count += 1;
            }
        }
        SideLanes {
            plant: self,
            side,
            numbers,
            count,
        }
    }

    // The limit of a side, if it has one.
    pub fn limit_of(&self, side: usize) -> Option<Limit<'a>>
        ensures { limit_seen result ≡ limit_of side (map told self.now.limits.items) }
    {
        self.limits
            .iter()
            .find(|limit| is_for(**limit, side))
            .copied()
    }

    // The lanes of a side, or the refusal where the side is not on the floor.
    fn side_asked(&self, side: usize) -> Result<SideLanes<'_, 'a>, OffFloor>
        ensures { MatchResult result (λ on. (on.plant.now ≡ self.now) × (on.side ≡ side)) (λ _. 2 * self.now.head.stations ≤ side) }
    {
        if side / 2 >= self.head.stations {
            return Err(OffFloor);
        }
        Ok(self.lanes_on(side))
    }
}

impl Plant for FilePlant<'_> {
    ghost meaning = { λ p. file_meaning p };

    ghost lawful = { λ p. kept_lawful p.head p.lanes.items (map told p.limits.items) p.kept };

    fn stations(&self) -> usize {
        self.head.stations
    }

    fn lanes(&self) -> usize {
        self.lanes.len()
    }

    fn stock(&self) -> usize {
        self.head.stock
    }

    fn despatch(&self) -> usize {
        self.head.despatch
    }

    fn ends(&self, lane: usize) -> Result<(usize, usize), OffFloor> {
        let lane = self.lanes.get(lane).ok_or(OffFloor)?;
        Ok((lane.from, lane.to))
    }

    fn width(&self, side: usize) -> Result<usize, OffFloor> {
        Ok(self.side_asked(side)?.width())
    }

    fn lane_at(&self, side: usize, position: usize) -> Result<usize, OffFloor> {
        let on = self.side_asked(side)?;
        on.lanes().get(position).copied().ok_or(OffFloor)
    }

    fn cap(&self, side: usize, set: usize) -> Result<u32, OffFloor> {
        let on = self.side_asked(side)?;
        if set >= 1 << on.width() {
            return Err(OffFloor);
        }
        Ok(on.cap(set))
    }
}
