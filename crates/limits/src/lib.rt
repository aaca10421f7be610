// The limits of a side, read in place from the bytes of a plant file: a table with a cap for each set of lanes, groups with
// bounds, or grades by the number of lanes.
//
// `check_limit` judges the numbers of a limit in the order of the checks, its answer equal to the definition of the format;
// `cap_of` gives the cap of a set under a limit that passed, equal to what the limit means. The laws of a table are tested lane by
// lane, which decides them over all pairs of sets. These functions are for the reader of plant files and the plant that it makes, whose
// proofs show what they require.
#![tactic(auto)]

ghost use Rattle.std.specs.Prelude.{◌≡◌};
ghost use Rattle.plantformat.specs.Records.{side_of};
ghost use Rattle.limits.specs.Told.{told};

mod caps;
mod checks;
mod grades;
mod groups;
mod numbers;
mod tables;

pub use caps::cap_of;
pub use checks::check_limit;

// A limit of a side, which borrows its numbers from the file: the caps of a table, the groups and the positions' groups of a
// groups record, or the grades. Each kind names its side, as each does in the definition of the format.
#[derive(Clone, Copy)]
pub enum Limit<'a> {
    Table {
        side: usize,
        caps: &'a [u8],
    },
    Groups {
        side: usize,
        count: usize,
        numbers: &'a [u8],
    },
    Grades {
        side: usize,
        steps: &'a [u8],
    },
}

impl Limit<'_> {
    // The side that the limit is for.
    pub fn side(self) -> usize
        ensures { result ≡ side_of (told self.entry) }
    {
        match self {
            Limit::Table { side, .. } | Limit::Groups { side, .. } | Limit::Grades { side, .. } =>
                side,
        }
    }
}
