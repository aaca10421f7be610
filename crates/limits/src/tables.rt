// A table of caps: a four-byte number for each set of the lanes of a side, by the set's code.
ghost use Rattle.std.specs.Prelude.{◌≡◌, ℕ, ◌^◌, ◌<◌, ◌≤◌};
ghost use Rattle.floor.specs.Numbers.{top_cap};
ghost use Rattle.polymatroid.specs.Tables.{every, rises_at, bends_at, rises, bows};
ghost use Rattle.limits.specs.Checks.{TableOf, table_cap, laws_checked};

use crate::numbers::nth_long;
use plantformat::{Law, LimitFault};
use setcodes::{contains, with_position};

// The caps of a side of `width` lanes, whose number and height have been looked at.
#[derive(Clone, Copy)]
pub(crate) struct CapTable<'a> {
    pub(crate) width: usize,
    pub(crate) caps: &'a [u8],
    ghost whole: { TableOf width caps.now },
}

impl CapTable<'_> {
    // How many sets there are.
    fn sets(self) -> usize
        ensures { result ≡ 2 ^ self.entry.width }
    {
        1 << self.width
    }

    // The cap of a set.
    fn cap(self, set: usize) -> u32
        requires { set < 2 ^ self.width }
        ensures value { result ≡ table_cap self.entry.caps.now set }
        ensures low { result ≤ top_cap }
    {
        nth_long(self.caps, set)
    }

    // Adding a position never lowers the cap of this set.
    #[tactic(auto, using(polymatroid::proofs::Build::plus_below))]
    fn set_rises(self, set: usize) -> bool
        requires { set < 2 ^ self.width }
        ensures { result ≡ every self.entry.width (λ p. rises_at (table_cap self.entry.caps.now) set p) }
    {
        (0..self.width).all(|position| {
            contains(set, position) || self.cap(set) <= self.cap(with_position(set, position))
        })
    }

    // Law 2: adding a position never lowers the cap, whatever the set.
    fn rises(self) -> bool
        ensures { result ≡ rises self.entry.width (table_cap self.entry.caps.now) }
    {
        (0..self.sets()).all(|set| self.set_rises(set))
    }

    // Positions p and q together bring no more to the set than each alone.
    #[tactic(auto, using(polymatroid::proofs::Build::plus_below), unfolding(polymatroid::specs::Tables::bends_at))]
    fn pair_bends(self, set: usize, p: usize, q: usize) -> bool
        requires set { set < 2 ^ self.width }
        requires lower { p < q }
        requires on { q < self.width }
        ensures { result ≡ bends_at (table_cap self.entry.caps.now) set p q }
    {
        if contains(set, p) || contains(set, q) {
            return true;
        }
        let with_q = with_position(set, q);
        let together = self.cap(with_position(with_q, p)) + self.cap(set);
        let apart = self.cap(with_position(set, p)) + self.cap(with_q);
        together <= apart
    }

    // Position q brings no more to the set together with a lower position than each alone.
    fn bends_below(self, set: usize, q: usize) -> bool
        requires set { set < 2 ^ self.width }
        requires on { q < self.width }
        ensures { result ≡ every q (λ p. bends_at (table_cap self.entry.caps.now) set p q) }
    {
        (0..q).all(|p| self.pair_bends(set, p, q))
    }

    // No two positions bring more to this set together than each alone.
    fn set_bends(self, set: usize) -> bool
        requires { set < 2 ^ self.width }
        ensures { result ≡ every self.entry.width (λ q. every q (λ p. bends_at (table_cap self.entry.caps.now) set p q)) }
    {
        (0..self.width).all(|q| self.bends_below(set, q))
    }

    // Law 3: no two positions bring more together than each alone, whatever the set.
    fn bends(self) -> bool
        ensures { result ≡ bows self.entry.width (table_cap self.entry.caps.now) }
    {
        (0..self.sets()).all(|set| self.set_bends(set))
    }

    // The laws, the lowest first.
    pub(crate) fn check_laws(self, at: usize) -> Result<(), LimitFault>
        ensures { result ≡ laws_checked self.entry.width at self.entry.caps.now }
    {
        if self.cap(0) != 0 {
            return Err(LimitFault::Breaks {
                at,
                law: Law::Empty,
            });
        }
        if !self.rises() {
            return Err(LimitFault::Breaks {
                at,
                law: Law::Grows,
            });
        }
        if !self.bends() {
            return Err(LimitFault::Breaks {
                at,
                law: Law::Bends,
            });
        }
        Ok(())
    }
}
