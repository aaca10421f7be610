// The rules of a scan between two lanes.
ghost use Rattle.std.specs.Prelude.{◌≡◌, ◌<◌, ◌==◌};
ghost use Rattle.network.specs.States.{Plus, Minus};
ghost use Rattle.labels.specs.Labels.{gift};
ghost use Rattle.measures.specs.ByRooms.{plus_plus, plus_minus, minus_plus, minus_minus};
ghost use Rattle.scans.specs.Standing.{meaning_of, trays_of, lanes_of, rule_of};

use crate::standing::Standing;
use labels::Sign;

// A lane that is scanned, and another that it may give a label to.
#[derive(Clone, Copy)]
pub(crate) struct Pair<'a> {
    pub(crate) standing: Standing<'a>,
    pub(crate) lane: usize,
    pub(crate) other: usize,
    // the scanned lane is on the floor
    ghost lane_on: { lane < lanes_of standing },
    // so is the other
    ghost other_on: { other < lanes_of standing },
}

impl Pair<'_> {
    // Whether an end of the scanned lane is at the same station as an end of the other.
    fn meet(&self, entering: bool, other_entering: bool) -> bool
        ensures { result ≡ ((meaning_of self.now.standing).floor.end entering self.now.lane == (meaning_of self.now.standing).floor.end other_entering self.now.other) }
    {
        let tables = self.standing.floor.tables;
        tables.end_of(self.lane, entering) == tables.end_of(self.other, other_entering)
    }

    // From a + lane to a + lane.
    fn plus_to_plus(&self) -> bool
        ensures { result ≡ plus_plus (meaning_of self.now.standing) (trays_of self.now.standing) self.now.lane self.now.other }
    {
        self.meet(true, false)
            && !self.standing.is_full(self.lane, true)
            && !self.standing.is_full(self.other, false)
    }

    // From a + lane to a − lane.
    fn plus_to_minus(&self) -> bool
        ensures { result ≡ plus_minus (meaning_of self.now.standing) (trays_of self.now.standing) self.now.lane self.now.other }
    {
        self.meet(true, true)
            && self.lane != self.other
            && if self.standing.is_full(self.lane, true) {
                self.standing.waits_for(self.lane, self.other, true)
            } else {
                self.standing.carries(self.other)
            }
    }

    // From a − lane to a + lane.
    fn minus_to_plus(&self) -> bool
        ensures { result ≡ minus_plus (meaning_of self.now.standing) (trays_of self.now.standing) self.now.lane self.now.other }
    {
        self.meet(false, false)
            && self.lane != self.other
            && (!self.standing.is_full(self.other, false)
                || (self.standing.is_full(self.lane, false)
                    && self.standing.waits_for(self.other, self.lane, false)))
    }

    // From a − lane to a − lane.
    fn minus_to_minus(&self) -> bool
        ensures { result ≡ minus_minus (meaning_of self.now.standing) (trays_of self.now.standing) self.now.lane self.now.other }
    {
        self.meet(false, true) && self.standing.carries(self.other)
    }

    // What a + lane gives to the other.
    #[tactic(auto, unfolding(measures::specs::ByRooms::ruled_by_rooms))]
    pub(crate) fn after_plus(&self) -> Option<Sign>
        ensures { result ≡ gift (rule_of self.now.standing) (Plus self.now.lane) self.now.other }
    {
        if self.plus_to_plus() {
            Some(Sign::Plus)
        } else if self.plus_to_minus() {
            Some(Sign::Minus)
        } else {
            None
        }
    }

    // What a − lane gives to the other.
    #[tactic(auto, unfolding(measures::specs::ByRooms::ruled_by_rooms))]
    pub(crate) fn after_minus(&self) -> Option<Sign>
        ensures { result ≡ gift (rule_of self.now.standing) (Minus self.now.lane) self.now.other }
    {
        if self.minus_to_plus() {
            Some(Sign::Plus)
        } else if self.minus_to_minus() {
            Some(Sign::Minus)
        } else {
            None
        }
    }
}
