// The caps of one side of a station, as a polymatroid: sets of positions as codes, the four laws of a cap, the ways in which
// a plant gives caps (own caps of the lanes, a table, groups, grades), and the test that decides the laws of a table lane by lane;
// then rooms, tight sets, and what exchanges of trays between positions do to them.
// It holds theorems and no code of the planner: each function's contract is one theorem.
#![tactic(auto)]

ghost use Rattle.polymatroid.specs.Sets.{BitsAgree};
ghost use Rattle.polymatroid.specs.Side.{TightSets};
ghost use Rattle.polymatroid.specs.Room.{Uncrossing, Zeroing, MembersByRoom};
ghost use Rattle.polymatroid.specs.Exchange.{ExchangesKeep};
ghost use Rattle.polymatroid.specs.Critical.{CriticalPairDies, NewPairSplices};
ghost use Rattle.polymatroid.specs.Worked.{WorkedTables};
ghost use Rattle.polymatroid.specs.Tables.{TablesTested, TestsDecide};

// The lane-by-lane test of a table names the lowest law that the table breaks, or none where it keeps them all.
pub fn tables_tested()
    ensures { TablesTested }
{}

// Each of the two lane-by-lane tests decides its law over all pairs of sets, whether or not the other laws hold.
pub fn tests_decide()
    ensures { TestsDecide }
{}

// The codes of sets join, meet and differ as the sets do.
pub fn codes_are_sets()
    ensures { BitsAgree }
{}

// A set crossed with a tight set has no more left below its cap, nor has what the two make.
pub fn uncrossing()
    ensures { Uncrossing }
{}

// Tight sets are closed under union and intersection; a full position has a smallest one, whose other members carry trays.
pub fn tight_sets()
    ensures { TightSets }
{}

// The room of a position with the trays of another put to 0 is its room over the sets without that other.
pub fn room_without_by_zeroing()
    ensures { Zeroing }
{}

// So the tight set of a full position is read off rooms.
pub fn members_by_room()
    ensures { MembersByRoom }
{}

// Exchanges made in turn leave the trays within the caps.
pub fn exchanges_keep_within_caps()
    ensures { ExchangesKeep }
{}

// A pair whose room is the amount has no room afterwards.
pub fn critical_pair_dies()
    ensures { CriticalPairDies }
{}

// A pair that the exchanges bring about comes from two pairs that stood before.
pub fn new_pair_splices()
    ensures { NewPairSplices }
{}

// On worked tables and grades the definitions give the laws that are broken, and the caps.
pub fn worked_tables_hold()
    ensures { WorkedTables }
{}
