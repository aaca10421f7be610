// The records of a file one by one: their order, their sizes, and the ranges of their numbers.
ghost use Rattle.std.specs.Prelude.{◌≡◌, ◌≢◌, ◌+◌, ◌≤◌, length, MatchResult};
ghost use Rattle.plantformat.specs.Bytes.{word, long};
ghost use Rattle.plantformat.specs.Rules.{head_keeps, lane_ranged};
ghost use Rattle.plantformat.specs.Judge.{head_read, lane_read, part_read, headed, recorded};
ghost use Rattle.plantformat.specs.declared.RecordFault.TheVariants.{Size};
ghost use Rattle.framing.specs.Frames.{shown};
ghost use Rattle.records.specs.Parts.{side_read, record_part, record_shown};

use framing::{Parsed, first_frame};
use limits::Limit;
use numerals::{long_at, word_at};
use plant::MOST_STATIONS;
use plantformat::{Head, Kind, Lane, RecordFault, TOP_LANE};

// A record after the head.
#[derive(Clone, Copy)]
pub enum Record<'a> {
    Lane(Lane),
    Limit(Limit<'a>),
}

// What a record after the head is judged against: how many stations there are, and whether lanes may come.
#[derive(Clone, Copy, Debug, PartialEq, Eq)]
pub struct Scope {
    pub stations: usize,
    pub lanes_may_come: bool,
}

// The numbers of a head are in their ranges.
#[tactic(auto, unfolding(plantformat::specs::Rules::head_keeps))]
fn head_in_range(head: Head) -> bool
    ensures { result ≡ head_keeps head }
{
    (2..=MOST_STATIONS).contains(&head.stations)
        && head.stock < head.stations
        && head.despatch < head.stations
        && head.stock != head.despatch
}

// The numbers of a lane are in their ranges.
#[tactic(auto, unfolding(plantformat::specs::Rules::lane_ranged))]
fn lane_in_range(lane: Lane, stations: usize) -> bool
    ensures { result ≡ lane_ranged stations lane }
{
    lane.from < stations && lane.to < stations && lane.own <= TOP_LANE
}

// The body of a record, and the place of the record in its file.
#[derive(Clone, Copy)]
struct Body<'a> {
    bytes: &'a [u8],
    at: usize,
}

impl<'a> Body<'a> {
    // The two-byte number at an offset.
    fn word(self, offset: usize) -> usize
        requires { offset + 2 ≤ length self.bytes.now }
        ensures { result ≡ word self.entry.bytes.now offset }
    {
        word_at(self.bytes, offset)
    }

    // The four-byte number at an offset.
    fn long(self, offset: usize) -> u32
        requires { offset + 4 ≤ length self.bytes.now }
        ensures { result ≡ long self.entry.bytes.now offset }
    {
        long_at(self.bytes, offset)
    }

    // A body of any other size is refused.
    fn check_size(self, size: usize) -> Result<(), RecordFault>
        ensures { MatchResult result (λ _. length self.entry.bytes.now ≡ size) (λ e. (length self.entry.bytes.now ≢ size) × (e ≡ Size self.entry.at)) }
    {
        if self.bytes.len() != size {
            return Err(RecordFault::Size { at: self.at });
        }
        Ok(())
    }

    // The body of a head.
    fn head(self) -> Result<Head, RecordFault>
        ensures { result ≡ head_read self.entry.at self.entry.bytes.now }
    {
        self.check_size(6)?;
        let head = Head {
            stations: self.word(0),
            stock: self.word(2),
            despatch: self.word(4),
        };
        if !head_in_range(head) {
            return Err(RecordFault::Range { at: self.at });
        }
        Ok(head)
    }

    // The body of a lane.
    fn lane(self, stations: usize) -> Result<Lane, RecordFault>
        ensures { result ≡ lane_read stations self.entry.at self.entry.bytes.now }
    {
        self.check_size(8)?;
        let lane = Lane {
            from: self.word(0),
            to: self.word(2),
            own: self.long(4),
        };
        if !lane_in_range(lane, stations) {
            return Err(RecordFault::Range { at: self.at });
        }
        Ok(lane)
    }

    // The side of a limit whose fixed part is so many bytes.
    fn side(self, fixed: usize, stations: usize) -> Result<usize, RecordFault>
        requires { 2 ≤ fixed }
        ensures { result ≡ side_read fixed stations self.entry.at self.entry.bytes.now }
    {
        if self.bytes.len() < fixed {
            return Err(RecordFault::Size { at: self.at });
        }
        let side = self.word(0);
        if side / 2 >= stations {
            return Err(RecordFault::Range { at: self.at });
        }
        Ok(side)
    }

    // A body by its kind.
    fn record(self, kind: Kind, scope: Scope) -> Result<Record<'a>, RecordFault>
        ensures { record_shown result ≡ part_read kind scope.lanes_may_come scope.stations self.entry.at self.entry.bytes.now }
    {
        match kind {
            Kind::Lane if scope.lanes_may_come => Ok(Record::Lane(self.lane(scope.stations)?)),
            Kind::Head | Kind::Lane => Err(RecordFault::Order { at: self.at }),
            Kind::Table => Ok(Record::Limit(Limit::Table {
                side: self.side(2, scope.stations)?,
                caps: &self.bytes[2..],
            })),
            Kind::Groups => Ok(Record::Limit(Limit::Groups {
                side: self.side(4, scope.stations)?,
                count: self.word(2),
                numbers: &self.bytes[4..],
            })),
            Kind::Grades => Ok(Record::Limit(Limit::Grades {
                side: self.side(2, scope.stations)?,
                steps: &self.bytes[2..],
            })),
        }
    }
}

// The first record of a file, which is its head.
#[tactic(auto, using(framing::proofs::Listed::framed_is))]
pub fn first_record<'a>(file: &'a [u8]) -> Result<Parsed<'a, Head>, RecordFault>
    ensures { shown (λ head. head) result ≡ headed file.now }
{
    if file.is_empty() {
        return Err(RecordFault::Order { at: 0 });
    }
    let frame = first_frame::<Kind>(file, 0)?;
    if frame.kind != Kind::Head {
        return Err(RecordFault::Order { at: 0 });
    }
    let body = Body {
        bytes: frame.body,
        at: 0,
    };
    Ok(Parsed {
        value: body.head()?,
        rest: frame.rest,
    })
}

// The first record of `bytes`, which follow the head and lie at the place `at` of the file.
#[tactic(auto, using(framing::proofs::Listed::framed_is))]
pub fn next_record<'a>(
    bytes: &'a [u8],
    at: usize,
    scope: Scope,
) -> Result<Parsed<'a, Record<'a>>, RecordFault>
    ensures { shown record_part result ≡ recorded scope.lanes_may_come scope.stations at bytes.now }
{
    let frame = first_frame::<Kind>(bytes, at)?;
    let body = Body {
        bytes: frame.body,
        at,
    };
    Ok(Parsed {
        value: body.record(frame.kind, scope)?,
        rest: frame.rest,
    })
}
