// What every layer means by a floor: stations, lanes, sides, positions, set codes and caps, the rules of a floor and the four
// laws of its caps. Definitions only; the theory, the trait of plants and every plant share them.
#![tactic(auto)]
