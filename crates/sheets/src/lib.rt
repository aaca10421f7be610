// The day's sheet: closings and ceilings for one day, as records framed like those of a plant file.
//
// `apply_sheet` sets a copy of a pile's closings and ceilings to what the records of a sheet say, from the front, and puts the copy in
// their place where no record is refused: a refused sheet changes nothing. Its verdict and what it sets are those of the definition
// `sheet_judged`.
#![tactic(auto)]

ghost use Rattle.sheets.specs.Promise.{AcceptedSheetsEncode, SheetsAreAccepted};

mod applying;
mod reading;

pub use applying::{MOST_SHEET_BYTES, apply_sheet};
pub use reading::Setting;

// An accepted sheet encodes the settings that are read from it, one after another, and each may be set on the floor.
pub fn accepted_sheets_encode()
    ensures { AcceptedSheetsEncode }
{}

// A sheet that encodes settings which may be set on the floor is accepted, with just these settings.
pub fn encoded_sheets_are_accepted()
    ensures { SheetsAreAccepted }
{}
