// Plants under covers. A covered plant holds the plant below by value and answers the same eight questions, so piles may be of any
// height; its cover changes the caps of the sides and leaves the floor. There are two covers: closings take positions out of the
// sets of their sides, ceilings bound the caps of their sides.
//
// What a covered plant means is defined from what the plant below means, and it keeps the laws since that plant does. Closings and
// ceilings are set on the pile itself; a plan takes the pile by value, so nothing can be set once a plan is open.
#![tactic(auto)]

ghost use Rattle.piles.specs.Meant.{ClosingCloses, CeilingBounds};

mod ceiling;
mod closing;
mod cover;
mod refusals;

pub use ceiling::{Ceiling, Ceilings};
pub use closing::{Closing, Closings};
pub use cover::{Cover, Covered};
pub use refusals::{MOST_SIDES, check_ceiling, check_closing};

// A closing that is not refused takes its position out of every set of its side, and changes nothing else.
pub fn a_closed_position_leaves_every_set()
    ensures { ClosingCloses }
{}

// A ceiling that is not refused bounds the caps of its side, in place of the one before, and changes nothing else.
pub fn a_ceiling_bounds_its_side()
    ensures { CeilingBounds }
{}
