// Who gives a label to whom at the trays of a plan. The rules of a scan are decided by rooms alone: those of each lane, measured
// beforehand, and those that a lane would have if another carried no trays, worked out when they are asked for.
#![tactic(auto)]

mod pair;
mod rules;
mod standing;

pub use standing::Standing;
