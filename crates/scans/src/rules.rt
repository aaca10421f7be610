// The rules of a scan.
ghost use Rattle.std.specs.Prelude.{◌≡◌, ◌<◌, false, nat_lt};
ghost use Rattle.network.specs.States.{Pole};
ghost use Rattle.labels.specs.Labels.{gift};
ghost use Rattle.measures.specs.ByRooms.{is_full, waits_for, start_plus, plus_end};
ghost use Rattle.scans.specs.Standing.{meaning_of, trays_of, lanes_of, rule_of};

use crate::pair::Pair;
use crate::standing::Standing;
use labels::{Scan, Sign, SignedLane};
use measures::room_zeroing;

impl Standing<'_> {
    // Whether a lane has no room at one of its ends.
    pub(crate) fn is_full(&self, lane: usize, entering: bool) -> bool
        requires { lane < lanes_of self.now }
        ensures { result ≡ is_full (meaning_of self.now) (trays_of self.now) entering lane }
    {
        self.rooms[lane].at(entering) == 0
    }

    // Whether a lane would have room if another at the same side carried no trays.
    pub(crate) fn waits_for(&self, lane: usize, other: usize, entering: bool) -> bool
        requires lane { lane < lanes_of self.now }
        requires other { other < lanes_of self.now }
        requires beside { (meaning_of self.now).floor.end entering lane ≡ (meaning_of self.now).floor.end entering other }
        ensures { result ≡ waits_for (meaning_of self.now) (trays_of self.now) entering lane other }
    {
        0 < room_zeroing(&self.floor, entering, lane, other)
    }

    // Whether a lane has trays.
    pub(crate) fn carries(&self, lane: usize) -> bool
        requires { lane < lanes_of self.now }
        ensures { result ≡ nat_lt 0 (trays_of self.now lane) }
    {
        0 < self.floor.trays[lane]
    }

    // From the stock to a + lane.
    fn start_to_plus(&self, other: usize) -> bool
        requires { other < lanes_of self.now }
        ensures { result ≡ start_plus (meaning_of self.now) (trays_of self.now) other }
    {
        let tables = self.floor.tables;
        tables.stock == tables.end_of(other, false) && !self.is_full(other, false)
    }

    // From a + lane to the despatch.
    fn plus_to_end(&self, lane: usize) -> bool
        requires { lane < lanes_of self.now }
        ensures { result ≡ plus_end (meaning_of self.now) (trays_of self.now) lane }
    {
        let tables = self.floor.tables;
        tables.end_of(lane, true) == tables.despatch && !self.is_full(lane, true)
    }

    // What the stock gives to a lane.
    #[tactic(auto, unfolding(measures::specs::ByRooms::ruled_by_rooms))]
    fn after_start(&self, to: usize) -> Option<Sign>
        requires { to < lanes_of self.now }
        ensures { result ≡ gift (rule_of self.now) (Pole false) to }
    {
        self.start_to_plus(to).then_some(Sign::Plus)
    }
}

impl Scan for Standing<'_> {
    ghost rule = { λ s. rule_of s };

    ghost size = { λ s. lanes_of s };

    fn lanes(&self) -> usize {
        self.floor.tables.lanes.len()
    }

    fn gives(&self, from: Option<SignedLane>, to: usize) -> Option<Sign> {
        let Some(scanned) = from else {
            return self.after_start(to);
        };
        let pair = Pair {
            standing: *self,
            lane: scanned.lane,
            other: to,
        };
        match scanned.sign {
            Sign::Plus => pair.after_plus(),
            Sign::Minus => pair.after_minus(),
        }
    }

    #[tactic(auto, unfolding(measures::specs::ByRooms::ruled_by_rooms))]
    fn ends(&self, last: SignedLane) -> bool {
        match last.sign {
            Sign::Plus => self.plus_to_end(last.lane),
            Sign::Minus => false,
        }
    }
}
