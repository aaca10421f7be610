// What the calls on a plan promise, over every list of calls in every order: a plan's trays are those of the last accepted load,
// or none, changed by the moves since; finished is answered exactly when no plan carries more; moves are counted and few.
// specs/Law.antt is the promise, in the words of the subject; specs/Does.antt is what each call does; the theorem is that plans
// which do that keep the promise. The calls themselves are the matter of the crate plan.
#![tactic(auto)]

ghost use Rattle.std.specs.Prelude.{◌≡◌};
ghost use Rattle.calls.specs.Refusals.{refusal_number};
ghost use Rattle.calls.specs.Law.{TraysAreDetermined};
ghost use Rattle.calls.specs.Kept.{CallsKeepThePromise, OpeningsKeepThePromise};

// Why a call is refused because of what the plan holds.
#[derive(Clone, Copy, Debug, PartialEq, Eq)]
pub enum Unfit {
    // A buffer whose length is not the number of lanes, or of stations.
    Length = 12,
    // A load that breaks a cap or a station's balance.
    Load = 13,
    // A cut read while the plan is not finished.
    Unfinished = 14,
}

impl Unfit {
    // The number under which the refusal is told.
    pub fn number(self) -> u8
        ensures { result ≡ refusal_number self }
    {
        self as u8
    }
}

// The trays of a plan are determined by the calls that it met and their answers.
pub fn trays_are_determined()
    ensures { TraysAreDetermined }
{}

// A plan that is opened keeps the promise of no call.
pub fn openings_keep_the_promise()
    ensures { OpeningsKeepThePromise }
{}

// Whatever call a plan meets that has kept the promise so far, it keeps the promise with that call too.
pub fn calls_keep_the_promise()
    ensures { CallsKeepThePromise }
{}
