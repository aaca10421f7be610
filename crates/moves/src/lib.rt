// The move of a step along its path: how many trays it moves, and the moving.
#![tactic(auto)]

ghost use Rattle.std.specs.Prelude.{◌≡◌, ℕ, suc, ◌+◌, ◌-◌, ◌<◌, ◌≤◌, min, map, fold, length, slice_index};
ghost use Rattle.std.specs.List.{range_with_len};
ghost use Rattle.floor.specs.Numbers.{most_lanes, top_cap};
ghost use Rattle.network.specs.States.{applied};
ghost use Rattle.rooms.specs.Rooms.{at};
ghost use Rattle.labelling.specs.Augmenting.{along};
ghost use Rattle.labelling.specs.Steps.{shifted};
ghost use Rattle.labels.specs.Labels.{Known, signed_state, from_state};
ghost use Rattle.measures.specs.ByRooms.{beside as room_beside};
ghost use Rattle.scans.specs.Standing.{meaning_of, trays_of, lanes_of};
ghost use Rattle.moves.specs.Amount.{term_by_rooms, through, amount_by_rooms, AmountsByRooms};
ghost use Rattle.moves.specs.Paths.{Among, to_state};

use labels::{Sign, SignedLane};
use measures::room_zeroing;
use scans::Standing;

// Trays more on a + lane, or fewer on a - lane.
#[tactic(auto, using(crate::proofs::Shifting::moved_plus, crate::proofs::Shifting::moved_minus))]
fn move_lane(step: SignedLane, amount: u32, trays: &mut [u32])
    requires on { step.lane < length trays.old }
    requires fits { slice_index trays.old step.lane + amount < 4294967296 }
    ensures all { length trays.new ≡ length trays.old }
    ensures each { at trays.new ≡ applied amount (signed_state step) (at trays.old) }
{
    match step.sign {
        Sign::Plus => trays[step.lane] += amount,
        Sign::Minus => trays[step.lane] = trays[step.lane].saturating_sub(amount),
    }
}

// Moves an amount of trays along a path: so many more on each + lane, so many fewer on each - lane.
#[tactic(auto, using(crate::proofs::Shifting::moving_on, crate::proofs::Shifting::moving_all))]
pub fn make_move(path: &[SignedLane], amount: u32, trays: &mut [u32])
    requires among { Among (length trays.old) (map signed_state path.now) }
    requires short { length path.now ≤ most_lanes }
    requires little { amount ≤ top_cap }
    requires capped { (e : ℕ) → e < length trays.old → slice_index trays.old e ≤ top_cap }
    ensures all { length trays.new ≡ length trays.old }
    ensures each { (e : ℕ) → slice_index trays.new e ≡ shifted amount (map signed_state path.now) (at trays.old) e }
{
    for step in path {
        move_lane(*step, amount, trays);
    }
}

// The room of a lane at one of its ends beside a neighbour in the path, whose trays count as none if it lies on the same side.
fn beside(standing: &Standing, entering: bool, lane: usize, neighbour: Option<SignedLane>) -> u32
    requires lane { lane < lanes_of standing.now }
    requires neighbour { Known (lanes_of standing.now) neighbour }
    ensures { result ≡ room_beside (meaning_of standing.now) (trays_of standing.now) entering lane (from_state neighbour) }
{
    let tables = standing.floor.tables;
    match neighbour {
        Some(other) if tables.end_of(other.lane, entering) == tables.end_of(lane, entering) => {
            room_zeroing(&standing.floor, entering, lane, other.lane)
        }
        _ => standing.rooms[lane].at(entering),
    }
}

// What a lane lets through between its neighbours: a - lane its trays, a + lane its room at either end.
fn let_through(
    standing: &Standing,
    before: Option<SignedLane>,
    lane: SignedLane,
    after: Option<SignedLane>,
) -> u32
    requires before { Known (lanes_of standing.now) before }
    requires lane { lane.lane < lanes_of standing.now }
    requires after { Known (lanes_of standing.now) after }
    ensures { result ≡ term_by_rooms (meaning_of standing.now) (trays_of standing.now) (from_state before) (signed_state lane) (from_state after) }
{
    match lane.sign {
        Sign::Plus => {
            let leaving = beside(standing, false, lane.lane, before);
            let entering = beside(standing, true, lane.lane, after);
            leaving.min(entering)
        }
        Sign::Minus => standing.floor.trays[lane.lane],
    }
}

// The signed lane before one of the path, if that is not the first.
#[tactic(auto, using(crate::proofs::Reading::lane_below, crate::proofs::Reading::along_first, crate::proofs::Reading::along_at))]
fn before(path: &[SignedLane], place: usize) -> Option<SignedLane>
    requires { place < length path.now }
    ensures is { from_state result ≡ along (map signed_state path.now) place }
    ensures known { (m : ℕ) → Among m (map signed_state path.now) → Known m result }
{
    place.checked_sub(1).map(|below| path[below])
}

// The signed lane after one of the path, if that is not the last.
#[tactic(auto, using(crate::proofs::Reading::lane_below, crate::proofs::Reading::along_at, crate::proofs::Reading::along_past))]
fn after(path: &[SignedLane], place: usize) -> Option<SignedLane>
    requires { place < length path.now }
    ensures is { to_state result ≡ along (map signed_state path.now) (suc (suc place)) }
    ensures known { (m : ℕ) → Among m (map signed_state path.now) → Known m result }
{
    path.get(place + 1).copied()
}

// What a lane of the path lets through.
#[tactic(auto, using(crate::proofs::Reading::lane_below, crate::proofs::Amounts::through_is))]
fn through_at(standing: &Standing, path: &[SignedLane], place: usize) -> u32
    requires among { Among (lanes_of standing.now) (map signed_state path.now) }
    requires place { place < length path.now }
    ensures { result ≡ through (meaning_of standing.now) (trays_of standing.now) (map signed_state path.now) place }
{
    let_through(
        standing,
        before(path, place),
        path[place],
        after(path, place),
    )
}

// The least of `most` and of what the lanes of the path after its first let through.
fn least_after_first(standing: &Standing, path: &[SignedLane], most: u32) -> u32
    requires { Among (lanes_of standing.now) (map signed_state path.now) }
    ensures { result ≡ fold min most (map (through (meaning_of standing.now) (trays_of standing.now) (map signed_state path.now)) (range_with_len 1 (length path.now - 1))) }
{
    (1..path.len())
        .map(|place| through_at(standing, path, place))
        .fold(most, |least, next| least.min(next))
}

// The amount of a path: the least that a lane of it lets through.
#[tactic(auto, using(crate::proofs::Amounts::amount_round))]
pub fn amount_of(standing: &Standing, path: &[SignedLane]) -> u32
    requires among { Among (lanes_of standing.now) (map signed_state path.now) }
    requires some { 0 < length path.now }
    ensures { result ≡ amount_by_rooms (meaning_of standing.now) (trays_of standing.now) (map signed_state path.now) }
{
    let first = through_at(standing, path, 0);
    least_after_first(standing, path, first)
}

// The amount that is worked out from rooms is the amount of the rules.
pub fn amounts_by_rooms()
    ensures { AmountsByRooms }
{}
