// Theorems about a finite relation, nothing of floors: walks and levels, what happens to them when the relation changes by
// splicing along a shortest path, and how many changes there can be. Each function's contract is one theorem; the lemmas in
// proofs/ hold for any states and relations.
#![tactic(auto)]

ghost use Rattle.levels.specs.Levels.{LevelsRise, LevelsRiseBack, NumbersRise};
ghost use Rattle.levels.specs.Counting.{FewAtOneLength, FewInAll};

// Splicing along a shortest path makes no walk from its first state shorter.
pub fn levels_rise()
    ensures { LevelsRise }
{}

// Nor any walk to its last state.
pub fn levels_rise_back()
    ensures { LevelsRiseBack }
{}

// Where a state keeps its level, the lowest number among the states before it does not fall.
pub fn lowest_numbers_rise()
    ensures { NumbersRise }
{}

// Moves whose marks never repeat at one length: no more of one length than there are marks.
pub fn few_at_one_length()
    ensures { FewAtOneLength }
{}

// And in all no more than lengths times marks.
pub fn few_in_all()
    ensures { FewInAll }
{}
