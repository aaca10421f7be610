// What a plant file says, and which files are refused: the records of a file, their rules, the caps that they define, and the
// order of the checks. The definitions are in specs/; this file holds the words that they and the reader share, and the
// theorem that the checks accept exactly the files that encode records which keep the rules.
#![tactic(auto)]

ghost use Rattle.std.specs.Prelude.{◌≡◌};
ghost use Rattle.plantformat.specs.Faults.{told};
ghost use Rattle.plantformat.specs.Kinds.{KindOf};
ghost use Rattle.plantformat.specs.Promise.{AcceptedFilesEncode, EncodingsAreAccepted, AcceptedPlantsAreLawful};
ghost use Rattle.plantformat.specs.declared.FloorFault.TheVariants.{Record, Limit};
ghost use Rattle.plantformat.specs.declared.RecordFault.TheVariants.{Framing};

pub use plant::Law;
use plant::{Reason, Refusal};

// A longer file is refused before anything else.
pub const MOST_BYTES: usize = 60_000;
// No lane's own cap and no grade is above this.
pub const TOP_LANE: u32 = 100_000;
// A groups record has one group at least, and this many at most.
pub const MOST_GROUPS: usize = 16;

// The kinds of record that a plant file may hold.
#[derive(Clone, Copy, Debug, PartialEq, Eq)]
pub enum Kind {
    Head,
    Lane,
    Table,
    Groups,
    Grades,
}

// A number that no kind of record has.
#[derive(Clone, Copy, Debug, PartialEq, Eq)]
pub struct UnlistedKind(pub u16);

// The kind with a number, if it is listed.
impl TryFrom<u16> for Kind {
    type Error = UnlistedKind;

    ghost try_from_gives = { KindOf };

    fn try_from(number: u16) -> Result<Kind, UnlistedKind> {
        match number {
            1 => Ok(Kind::Head),
            2 => Ok(Kind::Lane),
            3 => Ok(Kind::Table),
            4 => Ok(Kind::Groups),
            5 => Ok(Kind::Grades),
            _ => Err(UnlistedKind(number)),
        }
    }
}

// How many stations there are, and which of them are the stock and the despatch.
#[derive(Clone, Copy, Debug, PartialEq, Eq)]
pub struct Head {
    pub stations: usize,
    pub stock: usize,
    pub despatch: usize,
}

// A lane: the station that it leaves, the one that it enters, and its own cap.
#[derive(Clone, Copy, Debug, PartialEq, Eq)]
pub struct Lane {
    pub from: usize,
    pub to: usize,
    pub own: u32,
}

// A fault in how a file is cut into records. Every fault has the place of its record, its first byte.
#[derive(Clone, Copy, Debug, PartialEq, Eq)]
pub enum FramingFault {
    Length { at: usize },
    Kind { at: usize },
}

// A fault in one record, or below it.
#[derive(Clone, Copy, Debug, PartialEq, Eq)]
pub enum RecordFault {
    Framing(FramingFault),
    Order { at: usize },
    Size { at: usize },
    Range { at: usize },
}

// A fault in the caps that a limit gives.
#[derive(Clone, Copy, Debug, PartialEq, Eq)]
pub enum LimitFault {
    Breaks { at: usize, law: Law },
}

// A fault in the floor that the records make, or below it.
#[derive(Clone, Copy, Debug, PartialEq, Eq)]
pub enum FloorFault {
    Record(RecordFault),
    Limit(LimitFault),
    Ends { at: usize },
    TooMany { at: usize },
    SecondLimit { at: usize },
}

impl From<FramingFault> for RecordFault {
    ghost from_gives = { λ e r. r ≡ Framing e };

    fn from(e: FramingFault) -> RecordFault {
        RecordFault::Framing(e)
    }
}

impl From<RecordFault> for FloorFault {
    ghost from_gives = { λ e r. r ≡ Record e };

    fn from(e: RecordFault) -> FloorFault {
        FloorFault::Record(e)
    }
}

impl From<LimitFault> for FloorFault {
    ghost from_gives = { λ e r. r ≡ Limit e };

    fn from(e: LimitFault) -> FloorFault {
        FloorFault::Limit(e)
    }
}

// A fault of the framing as it is told.
impl From<FramingFault> for Refusal {
    ghost from_gives = { λ fault refusal. refusal ≡ told (Record (Framing fault)) };

    fn from(fault: FramingFault) -> Refusal {
        match fault {
            FramingFault::Length { at } => Refusal::new(Reason::Framing, at),
            FramingFault::Kind { at } => Refusal::new(Reason::Kind, at),
        }
    }
}

// A fault as it is told: number, layer, place and law.
impl From<FloorFault> for Refusal {
    ghost from_gives = { λ fault refusal. refusal ≡ told fault };

    fn from(fault: FloorFault) -> Refusal {
        match fault {
            FloorFault::Record(RecordFault::Framing(fault)) => Refusal::from(fault),
            FloorFault::Record(RecordFault::Order { at }) => Refusal::new(Reason::Order, at),
            FloorFault::Record(RecordFault::Size { at }) => Refusal::new(Reason::Size, at),
            FloorFault::Record(RecordFault::Range { at }) => Refusal::new(Reason::Range, at),
            FloorFault::Ends { at } => Refusal::new(Reason::Ends, at),
            FloorFault::TooMany { at } => Refusal::new(Reason::TooMany, at),
            FloorFault::SecondLimit { at } => Refusal::new(Reason::SecondLimit, at),
            FloorFault::Limit(LimitFault::Breaks { at, law }) => Refusal::new(Reason::Law(law), at),
        }
    }
}

// A file that is accepted encodes the records that it was read as, and these keep the rules.
pub fn accepted_files_encode()
    ensures { AcceptedFilesEncode }
{}

// A file that encodes records which keep the rules is accepted, and is read as just these records.
pub fn encodings_are_accepted()
    ensures { EncodingsAreAccepted }
{}

// Records that keep the rules define a floor and caps that keep the floor's rules and the four laws.
pub fn accepted_plants_are_lawful()
    ensures { AcceptedPlantsAreLawful }
{}
