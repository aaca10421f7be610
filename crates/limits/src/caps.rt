// The caps that a limit gives.
ghost use Rattle.std.specs.Prelude.{◌≡◌, ℕ, ◌^◌, ◌<◌, ◌≤◌, true, length, Some, slice_index};
ghost use Rattle.floor.specs.Numbers.{most_on_side};
ghost use Rattle.plantformat.specs.Numbers.{top_lane};
ghost use Rattle.plantformat.specs.Records.{cap_by};
ghost use Rattle.plantformat.specs.Rules.{limit_keeps};
ghost use Rattle.limits.specs.Told.{told};

use crate::Limit;
use crate::grades::grades_cap;
use crate::groups::Groups;
use crate::numbers::nth_long;

// The cap of a set of positions under a limit that keeps the rules, on a side whose lanes have these own caps.
pub fn cap_of(limit: Limit, own: &[u32], set: usize) -> u32
    requires keeps { limit_keeps (length own.now) (told limit) ≡ true }
    requires narrow { length own.now ≤ most_on_side }
    requires low { (p : ℕ) → p < length own.now → slice_index own.now p ≤ top_lane }
    requires on { set < 2 ^ length own.now }
    ensures { result ≡ cap_by (length own.now) (λ p. slice_index own.now p) (Some (told limit.entry)) set }
{
    // The first law: no lane, no trays.
    if set == 0 {
        return 0;
    }
    let width = own.len();
    match limit {
        Limit::Table { caps, .. } => nth_long(caps, set),
        Limit::Groups { count, numbers, .. } => Groups {
            count,
            width,
            numbers,
        }
        .cap(own, set),
        Limit::Grades { steps, .. } => grades_cap(steps, width, set),
    }
}
