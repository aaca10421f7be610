// Line plants: stations in a row with the same number of lanes from each to the next, made from three numbers instead of a file.
//
// `make_line` answers a plant together with the verdict on what it was made from; the plant of a refused line is the empty floor.
// The verdict is that of the definition `line_judged`, and an accepted line means what its numbers say.
#![tactic(auto)]

mod checks;
mod line_plant;
mod making;
mod questions;

pub use line_plant::LinePlant;
pub use making::make_line;
