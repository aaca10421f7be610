// Grades: what each further lane of a set adds to its cap.
ghost use Rattle.std.specs.Prelude.{◌≡◌, ◌*◌, ◌^◌, ◌<◌, ◌≤◌, true, length, slice_index};
ghost use Rattle.polymatroid.specs.Kinds.{graded};
ghost use Rattle.floor.specs.Numbers.{most_on_side};
ghost use Rattle.plantformat.specs.Numbers.{top_lane};
ghost use Rattle.plantformat.specs.Rules.{all_at_most, steps_fall};
ghost use Rattle.plantformat.specs.Judge.{longs};

use crate::numbers::Longs;
use setcodes::size;

// No grade is above the one before.
pub(crate) fn steps_fall(steps: &[u8]) -> bool
    ensures { result ≡ steps_fall (length (longs steps.now)) (longs steps.now) }
{
    Longs(steps).is_sorted_by(|before, after| after <= before)
}

// The sum of as many first grades as the set has members.
pub(crate) fn grades_cap(steps: &[u8], width: usize, set: usize) -> u32
    requires narrow { width ≤ most_on_side }
    requires whole { length (longs steps.now) ≡ width }
    requires low { all_at_most top_lane (longs steps.now) ≡ true }
    requires on { set < 2 ^ width }
    ensures { result ≡ graded (λ j. slice_index (longs steps.now) j) width set }
{
    Longs(steps).take(size(set)).sum()
}
