// What a plan does depends on its plant's floor alone: plans above meanings that agree on everything that is on the floor do the
// same at every call. So a plan that keeps tables of its plant's answers, and goes by them, does what the plant asks for. Each
// function's contract is one theorem.
#![tactic(auto)]

ghost use Rattle.agreement.specs.Agreeing.{AgreeingMeaningsHaveTheSamePlans, AgreeingPlansDoTheSame};

// The same trays are a plan.
pub fn agreeing_meanings_have_the_same_plans()
    ensures { AgreeingMeaningsHaveTheSamePlans }
{}

// A call gives the same answer and leaves the same trays.
pub fn agreeing_plans_do_the_same()
    ensures { AgreeingPlansDoTheSame }
{}
