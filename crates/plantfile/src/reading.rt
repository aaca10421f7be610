// Reading a file record by record into a plant.
ghost use Rattle.std.specs.Prelude.{◌≡◌, true, []};
ghost use Rattle.plantformat.specs.Faults.{told};
ghost use Rattle.plantformat.specs.Rules.{head_keeps};
ghost use Rattle.plantformat.specs.Judge.{judge, draft};
ghost use Rattle.answers.specs.Content.{content};
ghost use Rattle.framing.specs.Frames.{shown};
ghost use Rattle.records.specs.Parts.{record_part};
ghost use Rattle.plantfile.specs.Steps.{next_judged, grown, keeps_draft, KeptLimit, Added, opened, ReadWhole};
ghost use Rattle.plantfile.specs.Promise.{empty_draft, Judged, Promised};
ghost use Rattle.plantfile.specs.declared.reading.ReadError.TheVariants.{Refused, NoMemory};

use answers::FilePlant;
use framing::Parsed;
use limits::Limit;
use placing::fits;
use plant::Refusal;
use plantformat::{FloorFault, Head, MOST_BYTES};
use records::{Record, Scope, first_record, next_record};
use std::alloc::{AllocFailed, Global};

// Why a file is not read to its end.
#[derive(Clone, Copy, Debug, PartialEq, Eq)]
pub enum ReadError {
    // The file is no plant file, for this reason.
    Refused(Refusal),
    // There was not enough memory to read the file.
    NoMemory,
}

impl From<FloorFault> for ReadError {
    ghost from_gives = { λ fault r. r ≡ Refused (told fault) };

    fn from(fault: FloorFault) -> ReadError {
        ReadError::Refused(Refusal::from(fault))
    }
}

impl<T: Drop> From<AllocFailed<T>> for ReadError {
    ghost from_gives = { λ _ r. r ≡ NoMemory };

    fn from(_e: AllocFailed<T>) -> ReadError {
        ReadError::NoMemory
    }
}

// One limit more behind those that were read: none is dropped, however many there are.
fn keep_limit<'a>(limits: &mut Vec<Limit<'a>>, limit: Limit<'a>) -> Result<(), ReadError>
    ensures { KeptLimit limits.old.items limit.entry limits.new.items result }
{
    limits.push(limit)?;
    Ok(())
}

// The first record of `bytes`, if it may be added.
#[tactic(auto, using(crate::proofs::Steps::may_come))]
fn next_fitting<'a>(
    plant: &FilePlant<'a>,
    bytes: &'a [u8],
    at: usize,
) -> Result<Parsed<'a, Record<'a>>, FloorFault>
    ensures { shown record_part result ≡ next_judged (content plant.now) at bytes.now }
{
    let scope = Scope {
        stations: plant.head.stations,
        lanes_may_come: plant.limits.is_empty(),
    };
    let next = next_record(bytes, at, scope)?;
    fits(plant, next.value, at)?;
    Ok(next)
}

// One record more.
fn add<'a>(plant: &mut FilePlant<'a>, record: Record<'a>) -> Result<(), ReadError>
    requires { keeps_draft (grown (content plant.old) «record») ≡ true }
    ensures { Added (content plant.old) «record».entry (content plant.new) result }
{
    match record {
        Record::Lane(lane) => plant.lanes.push(lane)?,
        Record::Limit(limit) => keep_limit(&mut plant.limits, limit)?,
    }
    Ok(())
}

// A plant with a head, and no lanes and no limits yet.
fn bare<'a>(heap: Global, head: Head) -> FilePlant<'a>
    requires { head_keeps head ≡ true }
    ensures { content result ≡ draft head [] [] }
{
    FilePlant {
        head,
        lanes: Vec::new(heap),
        limits: Vec::new(heap),
    }
}

// The empty floor: two stations, stock 0, despatch 1, no lane.
#[tactic(auto, unfolding(plantformat::specs::Rules::head_keeps))]
fn empty<'a>(heap: Global) -> FilePlant<'a>
    ensures { content result ≡ empty_draft }
{
    bare(
        heap,
        Head {
            stations: 2,
            stock: 0,
            despatch: 1,
        },
    )
}

// The head of a file that is not too long.
fn open_file<'a>(file: &'a [u8]) -> Result<Parsed<'a, Head>, FloorFault>
    ensures { shown (λ head. head) result ≡ opened file.now }
{
    if file.len() > MOST_BYTES {
        return Err(FloorFault::TooMany { at: 0 });
    }
    Ok(first_record(file)?)
}

// The plant of a file that is read to its end.
fn whole_plant<'a>(heap: Global, file: &'a [u8]) -> Result<FilePlant<'a>, ReadError>
    ensures { ReadWhole (judge file.now) result }
{
    let first = open_file(file)?;
    let mut plant = bare(heap, first.value);
    let mut rest = first.rest;
    while !rest.is_empty() {
        let next = next_fitting(&plant, rest, file.len() - rest.len())?;
        add(&mut plant, next.value)?;
        rest = next.rest;
    }
    Ok(plant)
}

// A file's plant together with the verdict on the file. The plant of a file that is not accepted is the empty floor.
pub fn read_plant<'a>(heap: Global, file: &'a [u8]) -> (FilePlant<'a>, Result<(), ReadError>)
    ensures judged { Judged (judge file.now) (content result.0) result.1 }
    ensures promised { Promised file.now result.0 result.1 }
{
    match whole_plant(heap, file) {
        Ok(plant) => (plant, Ok(())),
        Err(error) => (empty(heap), Err(error)),
    }
}
