// The reader of plant files: bytes to a plant, together with the verdict on them.
//
// The way of the data is framing, records, floor, limits. Each layer has its own faults, which nest: a framing fault inside a
// record fault inside a floor fault. A file plant grows record by record and keeps the rules and the laws at every point, so the
// checks of a limit ask the plant itself how many lanes a side has.
//
// `read_plant` promises that its verdict is that of the definition `judge`, that a file is accepted exactly when it encodes records
// that keep the rules, and that the plant then means what those records define; a refused file leaves the empty floor.
#![tactic(auto)]

mod reading;

pub use answers::FilePlant;
pub use reading::{ReadError, read_plant};
