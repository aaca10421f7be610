// How much room each lane has on one side of a station: how many trays more it can take before a set of the side's lanes has
// more than its cap.
//
// `fill_sums` adds up the trays of every set. A loaded side has its caps, its trays and these sums, and tells the room of a
// position, also with the trays of another put to 0; each is equal to the definition of a room. Sets go by their code, lanes by
// their position on the side.
#![tactic(auto)]

ghost use Rattle.std.specs.Prelude.{◌≡◌, ℕ, ◌+◌, ◌-◌, ◌^◌, ◌<◌, ◌≤◌, length, slice_index, fold, min, map, filter};
ghost use Rattle.std.specs.List.{range_with_len};
ghost use Rattle.polymatroid.specs.Sets.{has};
ghost use Rattle.polymatroid.specs.Side.{left, room};
ghost use Rattle.polymatroid.specs.Room.{zeroed};
ghost use Rattle.floor.specs.Numbers.{most_on_side};
ghost use Rattle.rooms.specs.Rooms.{at, Sums, alone, lowered, share};

use arrayvec::ArrayVec;
use plant::{MOST_ON_SIDE, MOST_SETS};
use setcodes::{contains, only};
use std::array;

// Adds a position on top: the set `first` of the new position alone and each set above it has the sum of the set without the
// position, and `count` more.
fn add_position(sums: &mut [u64], first: usize, count: u32)
    requires whole { first + first ≤ length sums.old }
    requires low { (X : ℕ) → X < first → slice_index sums.old X < 2 ^ 63 }
    ensures below { (X : ℕ) → X < first → slice_index sums.new X ≡ slice_index sums.old X }
    ensures above { (X : ℕ) → X < first → slice_index sums.new (first + X) ≡ slice_index sums.old X + count }
{
    sums.copy_within(..first, first);
    let end = first + first;
    for sum in &mut sums[first..end] {
        *sum += u64::from(count);
    }
}

// The trays of every set, by one addition a set.
pub fn fill_sums(trays: &[u32], sums: &mut [u64])
    requires narrow { length trays.now ≤ most_on_side }
    requires whole { length sums.old ≡ 2 ^ length trays.now }
    ensures { Sums trays.now sums.new }
{
    sums[0] = 0;
    for (position, tray) in trays.iter().enumerate() {
        add_position(sums, only(position), *tray);
    }
}

// What a sum of trays leaves of a cap, and 0 if it is above it.
fn left_of(cap: u32, sum: u64) -> u32
    ensures { result ≡ cap - sum }
{
    u64::from(cap).saturating_sub(sum) as u32
}

// Lowers the room of each position in a set to `most`.
fn lower_rooms(rooms: &mut [u32; MOST_ON_SIDE], set: usize, most: u32)
    ensures { (p : ℕ) → p < most_on_side → slice_index rooms.new p ≡ lowered set most rooms.old p }
{
    for (position, room) in rooms.iter_mut().enumerate() {
        if contains(set, position) {
            *room = (*room).min(most);
        }
    }
}

// A side of a station with trays on it: the cap of every set of its lanes, the trays of each lane, and the trays of every set.
#[derive(Drop)]
pub struct LoadedSide<'a> {
    pub caps: &'a [u32],
    pub trays: ArrayVec<u32, MOST_ON_SIDE>,
    pub sums: &'a [u64],
    // every set has its cap
    ghost capped: { length caps.now ≡ 2 ^ length trays.items },
    // the sums are the trays of every set
    ghost summed: { Sums trays.items sums.now },
}

impl<'a> LoadedSide<'a> {
    // A side with these caps and trays, whose sums are kept in the buffer.
    pub fn new(
        caps: &'a [u32],
        trays: ArrayVec<u32, MOST_ON_SIDE>,
        buffer: &'a mut [u64; MOST_SETS],
    ) -> LoadedSide<'a>
        requires { length caps.now ≡ 2 ^ length trays.items }
        ensures caps { result.caps.now ≡ caps.now }
        ensures trays { result.trays.items ≡ trays.items }
    {
        let sums = &mut buffer[..caps.len()];
        fill_sums(trays.as_slice(), sums);
        LoadedSide { caps, trays, sums }
    }

    // What a set leaves of its cap.
    fn left(&self, set: usize) -> u32
        requires { set < 2 ^ length self.now.trays.items }
        ensures { result ≡ left (length self.now.trays.items) (at self.now.caps.now) (at self.now.trays.items) set }
    {
        left_of(self.caps[set], self.sums[set])
    }

    // The trays of a set, with those of a position put to 0.
    fn sum_without(&self, set: usize, other: usize) -> u64
        requires { set < 2 ^ length self.now.trays.items }
        ensures { result ≡ slice_index self.now.sums.now set - share set self.now.trays.items other }
    {
        if other < self.trays.len() && contains(set, other) {
            self.sums[set].saturating_sub(u64::from(self.trays.as_slice()[other]))
        } else {
            self.sums[set]
        }
    }

    // What a set leaves of its cap with the trays of a position put to 0.
    fn left_without(&self, set: usize, other: usize) -> u32
        requires { set < 2 ^ length self.now.trays.items }
        ensures { result ≡ left (length self.now.trays.items) (at self.now.caps.now) (zeroed (at self.now.trays.items) other) set }
    {
        left_of(self.caps[set], self.sum_without(set, other))
    }

    // The least of `most` and of what the sets with a position leave of their caps, with the trays of another position put to 0.
    fn least_left(&self, position: usize, other: usize, most: u32) -> u32
        requires { position < length self.now.trays.items }
        ensures { result ≡ fold min most (map (left (length self.now.trays.items) (at self.now.caps.now) (zeroed (at self.now.trays.items) other)) (filter (λ X. has X position) (range_with_len 0 (length self.now.caps.now)))) }
    {
        (0..self.caps.len())
            .filter(|set| contains(*set, position))
            .map(|set| self.left_without(set, other))
            .fold(most, |least, left| least.min(left))
    }

    // The room of a position with the trays of another put to 0; one that is not on the side changes nothing.
    pub fn room_without(&self, position: usize, other: usize) -> u32
        requires { position < length self.now.trays.items }
        ensures { result ≡ room (length self.now.trays.items) (at self.now.caps.now) (zeroed (at self.now.trays.items) other) position }
    {
        let alone = self.left_without(only(position), other);
        self.least_left(position, other, alone)
    }

    // What a position alone leaves of its cap, and 0 past the side's lanes.
    fn left_alone(&self, position: usize) -> u32
        ensures { result ≡ alone (length self.now.trays.items) (at self.now.caps.now) (at self.now.trays.items) position }
    {
        if position < self.trays.len() {
            self.left(only(position))
        } else {
            0
        }
    }

    // What each position alone leaves of its cap, and 0 past the side's lanes.
    fn each_alone(&self) -> [u32; MOST_ON_SIDE]
        ensures { (p : ℕ) → p < most_on_side → slice_index result p ≡ alone (length self.now.trays.items) (at self.now.caps.now) (at self.now.trays.items) p }
    {
        array::from_fn(|position| self.left_alone(position))
    }

    // The rooms of all positions, from one round over the sets; the places past the side's lanes hold 0.
    pub fn rooms(&self) -> [u32; MOST_ON_SIDE]
        ensures each { (p : ℕ) → p < length self.now.trays.items → slice_index result p ≡ room (length self.now.trays.items) (at self.now.caps.now) (at self.now.trays.items) p }
        ensures past { (p : ℕ) → length self.now.trays.items ≤ p → slice_index result p ≡ 0 }
    {
        let mut rooms = self.each_alone();
        for set in 0..self.caps.len() {
            lower_rooms(&mut rooms, set, self.left(set));
        }
        rooms
    }
}
