// Labelling as the rules give it, the step that it leads to, and why a plan is right: each function's contract is one theorem.
// specs/Rules, Table, Augmenting, Amount, Steps and Near are the rules, as definitions that compute; specs/Theorems is what
// they promise. What a move does to a floor is the matter of the crate network.
#![tactic(auto)]

ghost use Rattle.labelling.specs.Rules.{RulesGive};
ghost use Rattle.labelling.specs.Theorems.{AugmentingIsResidual, FirstShortestPath, MovesKeepPlansFeasible, MovesAreFew, RunsFinish, FinishedIsBest, PathMissingWhenBest, AnyOrder};
ghost use Rattle.labelling.specs.Sweep.{SweepsAgree};
ghost use Rattle.labelling.specs.Worked.{WorkedFloors};

// A scanned lane gives its label, by the rules, just where the residual relation has the pair.
pub fn rules_give_residual_pairs()
    ensures { RulesGive }
{}

// Augmenting paths, as the rules word them, are the paths of the residual relation through distinct lanes.
pub fn augmenting_is_residual()
    ensures { AugmentingIsResidual }
{}

// A step finds the first shortest augmenting path; where it finds none, there is none.
pub fn first_shortest_path()
    ensures { FirstShortestPath }
{}

// The amount of a move is at least 1, the trays stay a plan, and the total grows by the amount.
pub fn moves_keep_plans_feasible()
    ensures { MovesKeepPlansFeasible }
{}

// From move to move the paths grow no shorter; at most 2·m·m moves share one length, and at most 2·m·m·m follow one another.
pub fn moves_are_few()
    ensures { MovesAreFew }
{}

// So steps made one after another finish.
pub fn runs_finish()
    ensures { RunsFinish }
{}

// A finished plan carries what its cut lets through: no plan carries more, and no cut lets less through.
pub fn finished_is_best()
    ensures { FinishedIsBest }
{}

// An augmenting path is missing exactly when no plan carries more.
pub fn path_missing_when_best()
    ensures { PathMissingWhenBest }
{}

// The order of the three cases of a scan does not matter.
pub fn any_order_of_cases()
    ensures { AnyOrder }
{}

// A table that changes while its level is scanned has the labels of the rules.
pub fn sweeps_agree()
    ensures { SweepsAgree }
{}

// On the worked floors the definitions, evaluated, give the moves, amounts and totals that are written there.
pub fn worked_floors_hold()
    ensures { WorkedFloors }
{}
