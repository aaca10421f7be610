// The records of a plant file, one by one: the order, the size and the ranges of one record are judged. `first_record` and `next_record`
// take any bytes; their answers are equal to the definitions of the format. A framing fault is inside a record fault. Whether a record
// may stand on the floor so far is judged by the floor layer.
#![tactic(auto)]

mod bodies;

pub use bodies::{Record, Scope, first_record, next_record};
