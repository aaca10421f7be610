// Setting a pile to what a sheet says.
ghost use Rattle.std.specs.Prelude.{◌≡◌, length};
ghost use Rattle.sheets.specs.Sheet.{setting_judged, setting_made, settings, settings_of, sheet_read, sheet_judged, made_of, Reads, Applied};

use crate::reading::{Setting, first_setting};
use piles::{Ceiling, Ceilings, Closing, Closings};
use plant::{Plant, Reason, Refusal};

// A longer sheet is refused before anything else.
pub const MOST_SHEET_BYTES: usize = 4_096;

// What a sheet sets: the closings and the ceilings of a pile.
#[derive(Clone, Copy)]
struct Covers {
    closings: Closings,
    ceilings: Ceilings,
}

impl Covers {
    // Sets what the record at a place says over the plant. A refusal by the pile gets the place of the record.
    fn set<P: Plant>(&mut self, plant: &P, setting: Setting, at: usize) -> Result<(), Refusal>
        ensures judged { result ≡ setting_judged (P.meaning plant.now).floor at setting }
        ensures made { settings_of self.new ≡ setting_made (P.meaning plant.now).floor setting (settings_of self.old) }
    {
        match setting {
            Setting::Close { side, position } => self.closings.close(plant, side, position),
            Setting::Lower { side, ceiling } => self.ceilings.set(plant, side, ceiling),
        }
        .map_err(|refusal| Refusal {
            place: at,
            ..refusal
        })
    }

    // Sets what every record of a sheet says over the plant, up to one that is refused.
    fn set_all<P: Plant>(&mut self, plant: &P, sheet: &[u8]) -> Result<(), Refusal>
        ensures { Reads (made_of (P.meaning plant.now).floor (sheet_read (length sheet.now) (length sheet.now) (P.meaning plant.now).floor sheet.now) (settings_of self.old)) (settings_of self.new) result }
    {
        let mut rest = sheet;
        while !rest.is_empty() {
            let at = sheet.len() - rest.len();
            let first = first_setting(rest, at)?;
            self.set(plant, first.value, at)?;
            rest = first.rest;
        }
        Ok(())
    }
}

// Sets a pile to what the day's sheet says: every record in its order, or nothing where a record is refused.
pub fn apply_sheet<P: Plant>(sheet: &[u8], pile: &mut Ceiling<Closing<P>>) -> Result<(), Refusal>
    ensures plant { pile.new.below.below ≡ pile.old.below.below }
    ensures applied { Applied (P.meaning pile.old.below.below).floor (sheet_judged (P.meaning pile.old.below.below).floor sheet.now) (settings pile.old.below.cover.closed pile.old.cover.ceilings) (settings pile.new.below.cover.closed pile.new.cover.ceilings) result }
{
    if sheet.len() > MOST_SHEET_BYTES {
        return Err(Refusal::new(Reason::TooMany, 0));
    }
    let mut covers = Covers {
        closings: pile.below.cover,
        ceilings: pile.cover,
    };
    covers.set_all(&pile.below.below, sheet)?;
    pile.below.cover = covers.closings;
    pile.cover = covers.ceilings;
    Ok(())
}
