// The cut that the labels of a finished plan show: which stations are near, and which lanes lead from near to far.
#![tactic(auto)]

ghost use Rattle.cuts.specs.Cut.{CutBytes};

mod labelled;
mod measured;

pub use labelled::LabelledFloor;
pub use measured::MeasuredFloor;

// The bytes are those of the cut that a plan tells.
pub fn cut_bytes()
    ensures { CutBytes }
{}
