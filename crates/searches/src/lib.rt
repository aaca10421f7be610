// The search of a step: the first shortest augmenting path at the trays of a plan and how many trays it takes, or the cut that
// shows that there is none. Rooms are measured, lanes are labelled level by level, the path is read back along the names; each
// part stands in a crate of its own, and here they are put together. All memory is taken when the search is made.
#![tactic(auto)]

ghost use Rattle.std.specs.Prelude.{◌≡◌, true};
ghost use Rattle.floor.specs.Meaning.{Lawful};
ghost use Rattle.labelling.specs.Steps.{outcome};
ghost use Rattle.labels.specs.Labels.{marks_in, lanes_in, came_out};
ghost use Rattle.labels.specs.Paths.{Falls, EndedAt};
ghost use Rattle.scans.specs.Standing.{meaning_of, trays_of, lanes_of};
ghost use Rattle.calls.specs.Does.{is_plan};

use labels::LabelTable;
use scans::Standing;

mod search;

pub use search::Search;

// Labels the lanes at the trays, and answers the level and the lane at which a path ends, if one does.
fn label_lanes(labels: &mut LabelTable, standing: &Standing) -> Option<(usize, usize)>
    requires labels { lanes_in labels.old ≡ lanes_of standing.now }
    requires lawful { Lawful (meaning_of standing.now) }
    requires plan { is_plan (meaning_of standing.now) (trays_of standing.now) ≡ true }
    ensures outcome { outcome (meaning_of standing.now) (trays_of standing.now) ≡ came_out result (marks_in labels.new) }
    ensures falls { Falls (marks_in labels.new) }
    ensures last { EndedAt (lanes_of standing.now) result (marks_in labels.new) }
    ensures len { lanes_in labels.new ≡ lanes_in labels.old }
{
    labels.label(standing)
}
