// What a closing or a ceiling makes of the plant below it: the floor stays, the caps of each side change, and the four laws stay.
// It holds definitions and theorems and no code: each function's contract is one theorem. The plants themselves are in piles.
#![tactic(auto)]

ghost use Rattle.layers.specs.Meanings.{ClosingsKeepTheLaws, CeilingsKeepTheLaws};

// A lawful plant stays lawful whatever positions of its sides are closed.
pub fn closings_keep_the_laws()
    ensures { ClosingsKeepTheLaws }
{}

// A lawful plant stays lawful whatever ceilings its sides get.
pub fn ceilings_keep_the_laws()
    ensures { CeilingsKeepTheLaws }
{}
