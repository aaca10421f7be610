// What a line plant means: stations in a row with the same number of lanes from each to the next, every side with lanes under the
// same grades. It holds definitions and theorems and no code; the plant itself is in lines.
#![tactic(auto)]

ghost use Rattle.linefloor.specs.Line.{LinesAreLawful};

// Every line whose numbers keep the rules of lines is a lawful plant.
pub fn lines_are_lawful()
    ensures { LinesAreLawful }
{}
