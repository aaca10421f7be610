// Groups of the lanes of a side: a parent and a bound for each group, then the group of each position.
ghost use Rattle.std.specs.Prelude.{◌≡◌, ℕ, ◌+◌, ◌*◌, ◌<◌, ◌≤◌, min, true, length, slice_index};
ghost use Rattle.polymatroid.specs.Kinds.{grouped};
ghost use Rattle.floor.specs.Numbers.{top_cap};
ghost use Rattle.plantformat.specs.Numbers.{top_lane, most_groups};
ghost use Rattle.plantformat.specs.Bytes.{word, long};
ghost use Rattle.plantformat.specs.Rules.{all_at_most, all_below, parents_keep};
ghost use Rattle.plantformat.specs.Judge.{parents_at, bounds_at, members_at};
ghost use Rattle.limits.specs.Checks.{GroupsOf, groups_in, own_share};

use numerals::{long_at, word_at};
use plant::TOP_CAP;
use plantformat::MOST_GROUPS;
use setcodes::contains;

// The numbers of `count` groups of a side of `width` lanes.
#[derive(Clone, Copy)]
pub(crate) struct Groups<'a> {
    pub(crate) count: usize,
    pub(crate) width: usize,
    pub(crate) numbers: &'a [u8],
    // all of them are there
    ghost whole: { 6 * count + 2 * width ≤ length numbers.now },
}

impl Groups<'_> {
    // The parent of a group.
    fn parent(self, group: usize) -> usize
        requires { group < self.count }
        ensures { result ≡ word self.entry.numbers.now (6 * group) }
    {
        word_at(self.numbers, 6 * group)
    }

    // The bound of a group.
    fn bound(self, group: usize) -> u32
        requires { group < self.count }
        ensures { result ≡ long self.entry.numbers.now (6 * group + 2) }
    {
        long_at(self.numbers, 6 * group + 2)
    }

    // The group of a position.
    fn group_of(self, position: usize) -> usize
        requires { position < self.width }
        ensures { result ≡ word self.entry.numbers.now (6 * self.entry.count + 2 * position) }
    {
        word_at(self.numbers, 6 * self.count + 2 * position)
    }

    // Group 0 is its own parent, and every other parent is a lower group.
    pub(crate) fn parents_keep(self) -> bool
        requires { 1 ≤ self.count }
        ensures { result ≡ parents_keep (parents_at self.entry.count self.entry.numbers.now) }
    {
        self.parent(0) == 0 && (1..self.count).all(|group| self.parent(group) < group)
    }

    // No group has a bound above the top cap.
    pub(crate) fn bounds_low(self) -> bool
        ensures { result ≡ all_at_most top_cap (bounds_at self.entry.count self.entry.numbers.now) }
    {
        (0..self.count).all(|group| self.bound(group) <= TOP_CAP)
    }

    // Every position has one of the groups.
    pub(crate) fn members_grouped(self) -> bool
        ensures { result ≡ all_below self.entry.count (members_at self.entry.width self.entry.count self.entry.numbers.now) }
    {
        (0..self.width).all(|position| self.group_of(position) < self.count)
    }

    // The own caps of the set's members, added up by group: one pass over the lanes adds each to the sum of its group.
    #[tactic(auto, using(crate::proofs::CapSums::member_on))]
    fn own_sums(self, own: &[u32], set: usize) -> [u32; MOST_GROUPS]
        requires groups { GroupsOf self.count (length own.now) self.numbers.now }
        requires all { length own.now ≡ self.width }
        requires low { (p : ℕ) → p < length own.now → slice_index own.now p ≤ top_lane }
        ensures { (i : ℕ) → i < most_groups → slice_index result i ≡ own_share (groups_in self.entry.count self.entry.numbers.now own.now) (length own.now) i set }
    {
        let mut sums = [0; MOST_GROUPS];
        for (position, cap) in own.iter().enumerate() {
            if contains(set, position) {
                sums[self.group_of(position)] += *cap;
            }
        }
        sums
    }

    // What a group lets through of what has reached it: no more than its bound.
    fn let_through(self, group: usize, reached: u32) -> u32
        requires { group < self.count }
        ensures { result ≡ min reached (long self.entry.numbers.now (6 * group + 2)) }
    {
        reached.min(self.bound(group))
    }

    // The cap of a set: from the highest group down, each passes what it lets through to its parent.
    #[tactic(auto, using(crate::proofs::Sweeps::parent_lower))]
    pub(crate) fn cap(self, own: &[u32], set: usize) -> u32
        requires groups { GroupsOf self.count (length own.now) self.numbers.now }
        requires all { length own.now ≡ self.width }
        requires low { (p : ℕ) → p < length own.now → slice_index own.now p ≤ top_lane }
        ensures { result ≡ grouped (groups_in self.entry.count self.entry.numbers.now own.now) (length own.now) set }
    {
        let mut sums = self.own_sums(own, set);
        for group in (1..self.count).rev() {
            let passed = self.let_through(group, sums[group]);
            sums[self.parent(group)] += passed;
        }
        self.let_through(0, sums[0])
    }
}
