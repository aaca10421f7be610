// What a move does to a floor. A path runs through states, which are the signed lanes with a start and an end; a pair of states
// lets an amount of trays through, and that is the residual relation. Each function's contract is one theorem: a move along a
// path without detour keeps within the caps and balanced, its critical pair dies, new steps splice, lengths rise, cuts bound.
// Which path a step takes is the matter of the crate labelling.
#![tactic(auto)]

ghost use Rattle.network.specs.Moves.{MoveFits, MoveBalances, PairDies, StepsSplice};
ghost use Rattle.network.specs.Stages.{LengthsRise, PairsDiffer, FewShareALength, FewStages};
ghost use Rattle.network.specs.Found.{SearchFinds};
ghost use Rattle.network.specs.Cuts.{CutBounds};
ghost use Rattle.network.specs.Finished.{FinishedBest};

// A move along a path without detour, of no more than each pair lets through, keeps within the caps.
pub fn move_fits()
    ensures { MoveFits }
{}

// It keeps the balance, and adds its amount to the total.
pub fn move_balances()
    ensures { MoveBalances }
{}

// A pair that lets just the amount through lets nothing through afterwards.
pub fn pair_dies()
    ensures { PairDies }
{}

// A step that a move brings about comes from a step into the path and an earlier step out of it.
pub fn steps_splice()
    ensures { StepsSplice }
{}

// A search by levels that gives each lane one label finds a shortest path, of lowest lane numbers.
pub fn search_finds()
    ensures { SearchFinds }
{}

// From move to move the paths grow no shorter.
pub fn lengths_rise()
    ensures { LengthsRise }
{}

// Among moves of one length no critical pair comes again.
pub fn pairs_differ()
    ensures { PairsDiffer }
{}

// At most 2·m·m moves share one length.
pub fn few_share_a_length()
    ensures { FewShareALength }
{}

// At most 2·m·m·m moves follow one another.
pub fn few_stages()
    ensures { FewStages }
{}

// No plan carries more than a cut lets through, fractions of trays allowed.
pub fn cut_bounds()
    ensures { CutBounds }
{}

// Where the labels are closed, the plan carries what their cut lets through.
pub fn finished_best()
    ensures { FinishedBest }
{}
