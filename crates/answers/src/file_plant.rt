// A plant that answers from the bytes of a plant file.
ghost use Rattle.std.specs.Prelude.{◌≡◌, true, map};
ghost use Rattle.plantformat.specs.Rules.{keeps};
ghost use Rattle.limits.specs.Told.{told};

use limits::Limit;
use plantformat::{Head, Lane};

// The head, the lanes and the limits of a file, in the order of the file. The limits borrow their numbers from it.
#[derive(Drop)]
pub struct FilePlant<'a> {
    pub head: Head,
    pub lanes: Vec<Lane>,
    pub limits: Vec<Limit<'a>>,
    // what has been read keeps the rules of a plant file
    ghost kept: { keeps head lanes.items (map told limits.items) ≡ true },
}
