// The numbers in the bytes of a limit.
ghost use Rattle.std.specs.Prelude.{◌≡◌, ◌+◌, ◌*◌, ◌≤◌, length, slice_index};
ghost use Rattle.std.specs.Iterator.{YieldsFirst, item_count};
ghost use Rattle.plantformat.specs.Judge.{longs};

use numerals::long_at;

// The four-byte numbers in bytes, one after another.
#[derive(Drop)]
pub(crate) struct Longs<'a>(pub(crate) &'a [u8]);

impl<'a> Iterator for Longs<'a> {
    type Item = u32;

    ghost next_gives = { YieldsFirst (λ s. longs s.0.now) };

    ghost remaining = { item_count (λ s. longs s.0.now) };

    #[tactic(auto, using(crate::proofs::Ranges::no_longs, crate::proofs::Ranges::longs_more))]
    fn next(&mut self) -> Option<u32> {
        let (first, rest) = self.0.split_first_chunk::<4>()?;
        self.0 = rest;
        Some(u32::from_le_bytes(*first))
    }
}

// The four-byte number with so many before it.
#[tactic(auto, using(crate::proofs::Checked::longs_at))]
pub(crate) fn nth_long(bytes: &[u8], n: usize) -> u32
    requires { 4 * n + 4 ≤ length bytes.now }
    ensures { result ≡ slice_index (longs bytes.now) n }
{
    long_at(bytes, 4 * n)
}
