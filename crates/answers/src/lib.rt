// A plant that answers from the records of a plant file: the lanes and the limits that were read, and the answers to the eight
// questions of `Plant`, looked up in them.
//
// A file plant keeps the rules of a plant file at every point, so every floor and every cap that it answers is lawful, and each
// answer is equal to what its records mean. Which records a plant is made of is for the reader of plant files to say.
#![tactic(auto)]

mod file_plant;
mod questions;
mod side_lanes;

pub use file_plant::FilePlant;
pub use side_lanes::SideLanes;
