// A file for each refusal, with its place and its law.
use plant::{Law, Plant, Reason, Refusal};
use plantfile::{ReadError, read_plant};
use std::alloc::Global;

// The file is refused for this reason, at this place, with this law, and its plant is the empty floor.
fn is_refused(heap: Global, file: &[u8], reason: Reason, place: usize, law: u8) -> bool {
    let (plant, verdict) = read_plant(heap, file);
    verdict == Err(ReadError::Refused(Refusal::new(reason, place)))
        && reason.law_number() == law
        && plant.stations() == 2
        && plant.lanes() == 0
}

// The last lane lacks a byte.
const CUT_SHORT: &[u8] = &[
    10, 0, 1, 0, 2, 0, 0, 0, 1, 0, 12, 0, 2, 0, 0, 0, 1, 0, 3, 0, 0, 0, 12, 0, 2, 0, 0, 0, 1, 0, 4,
    0, 0,
];

// A record of a kind that no plant file has.
const UNLISTED_KIND: &[u8] = &[10, 0, 1, 0, 2, 0, 0, 0, 1, 0, 4, 0, 9, 0];

// A lane after a table.
const LANE_AFTER_A_LIMIT: &[u8] = &[
    10, 0, 1, 0, 2, 0, 0, 0, 1, 0, 12, 0, 2, 0, 0, 0, 1, 0, 3, 0, 0, 0, 12, 0, 2, 0, 0, 0, 1, 0, 4,
    0, 0, 0, 22, 0, 3, 0, 0, 0, 0, 0, 0, 0, 3, 0, 0, 0, 4, 0, 0, 0, 5, 0, 0, 0, 12, 0, 2, 0, 0, 0,
    1, 0, 1, 0, 0, 0,
];

// A table of three numbers on a side of two lanes.
const SHORT_TABLE: &[u8] = &[
    10, 0, 1, 0, 2, 0, 0, 0, 1, 0, 12, 0, 2, 0, 0, 0, 1, 0, 3, 0, 0, 0, 12, 0, 2, 0, 0, 0, 1, 0, 4,
    0, 0, 0, 18, 0, 3, 0, 0, 0, 0, 0, 0, 0, 3, 0, 0, 0, 4, 0, 0, 0,
];

// A lane whose own cap is above 100,000.
const HEAVY_LANE: &[u8] = &[
    10, 0, 1, 0, 2, 0, 0, 0, 1, 0, 12, 0, 2, 0, 0, 0, 1, 0, 161, 134, 1, 0,
];

// A lane out of the despatch and into the stock.
const INTO_THE_STOCK: &[u8] = &[
    10, 0, 1, 0, 2, 0, 0, 0, 1, 0, 12, 0, 2, 0, 1, 0, 0, 0, 1, 0, 0, 0,
];

// Nine lanes between two stations.
const NINTH_LANE: &[u8] = &[
    10, 0, 1, 0, 2, 0, 0, 0, 1, 0, 12, 0, 2, 0, 0, 0, 1, 0, 1, 0, 0, 0, 12, 0, 2, 0, 0, 0, 1, 0, 1,
    0, 0, 0, 12, 0, 2, 0, 0, 0, 1, 0, 1, 0, 0, 0, 12, 0, 2, 0, 0, 0, 1, 0, 1, 0, 0, 0, 12, 0, 2, 0,
    0, 0, 1, 0, 1, 0, 0, 0, 12, 0, 2, 0, 0, 0, 1, 0, 1, 0, 0, 0, 12, 0, 2, 0, 0, 0, 1, 0, 1, 0, 0,
    0, 12, 0, 2, 0, 0, 0, 1, 0, 1, 0, 0, 0, 12, 0, 2, 0, 0, 0, 1, 0, 1, 0, 0, 0,
];

// A table and grades for one side.
const SECOND_LIMIT: &[u8] = &[
    10, 0, 1, 0, 2, 0, 0, 0, 1, 0, 12, 0, 2, 0, 0, 0, 1, 0, 3, 0, 0, 0, 12, 0, 2, 0, 0, 0, 1, 0, 4,
    0, 0, 0, 22, 0, 3, 0, 0, 0, 0, 0, 0, 0, 3, 0, 0, 0, 4, 0, 0, 0, 5, 0, 0, 0, 14, 0, 5, 0, 0, 0,
    2, 0, 0, 0, 1, 0, 0, 0,
];

// A table that gives the empty set a cap of 1.
const LAW_OF_THE_EMPTY_SET: &[u8] = &[
    10, 0, 1, 0, 2, 0, 0, 0, 1, 0, 12, 0, 2, 0, 0, 0, 1, 0, 3, 0, 0, 0, 12, 0, 2, 0, 0, 0, 1, 0, 4,
    0, 0, 0, 22, 0, 3, 0, 0, 0, 1, 0, 0, 0, 3, 0, 0, 0, 4, 0, 0, 0, 5, 0, 0, 0,
];

// A table in which a lane lowers a cap.
const LAW_OF_GROWTH: &[u8] = &[
    10, 0, 1, 0, 2, 0, 0, 0, 1, 0, 12, 0, 2, 0, 0, 0, 1, 0, 3, 0, 0, 0, 12, 0, 2, 0, 0, 0, 1, 0, 4,
    0, 0, 0, 22, 0, 3, 0, 0, 0, 0, 0, 0, 0, 3, 0, 0, 0, 4, 0, 0, 0, 3, 0, 0, 0,
];

// A table in which two lanes bring more together than apart.
const LAW_OF_SHARING: &[u8] = &[
    10, 0, 1, 0, 2, 0, 0, 0, 1, 0, 12, 0, 2, 0, 0, 0, 1, 0, 3, 0, 0, 0, 12, 0, 2, 0, 0, 0, 1, 0, 4,
    0, 0, 0, 22, 0, 3, 0, 0, 0, 0, 0, 0, 0, 3, 0, 0, 0, 4, 0, 0, 0, 8, 0, 0, 0,
];

// Grades that rise.
const RISING_GRADES: &[u8] = &[
    10, 0, 1, 0, 2, 0, 0, 0, 1, 0, 12, 0, 2, 0, 0, 0, 1, 0, 3, 0, 0, 0, 12, 0, 2, 0, 0, 0, 1, 0, 4,
    0, 0, 0, 14, 0, 5, 0, 0, 0, 2, 0, 0, 0, 5, 0, 0, 0,
];

#[test]
fn framing_and_records(rt: HostRuntime) {
    let heap = rt.alloc();
    assert!(rt; is_refused(heap, CUT_SHORT, Reason::Framing, 22, 0));
    assert!(rt; is_refused(heap, UNLISTED_KIND, Reason::Kind, 10, 0));
    assert!(rt; is_refused(heap, &[], Reason::Order, 0, 0));
    assert!(rt; is_refused(heap, LANE_AFTER_A_LIMIT, Reason::Order, 56, 0));
    assert!(rt; is_refused(heap, SHORT_TABLE, Reason::Size, 34, 0));
    assert!(rt; is_refused(heap, HEAVY_LANE, Reason::Range, 10, 0));
}

#[test]
fn floors_and_limits(rt: HostRuntime) {
    let heap = rt.alloc();
    assert!(rt; is_refused(heap, INTO_THE_STOCK, Reason::Ends, 10, 0));
    assert!(rt; is_refused(heap, NINTH_LANE, Reason::TooMany, 106, 0));
    assert!(rt; is_refused(heap, SECOND_LIMIT, Reason::SecondLimit, 56, 0));
    assert!(rt; is_refused(heap, LAW_OF_THE_EMPTY_SET, Reason::Law(Law::Empty), 34, 1));
    assert!(rt; is_refused(heap, LAW_OF_GROWTH, Reason::Law(Law::Grows), 34, 2));
    assert!(rt; is_refused(heap, LAW_OF_SHARING, Reason::Law(Law::Bends), 34, 3));
    assert!(rt; is_refused(heap, RISING_GRADES, Reason::Law(Law::Bends), 34, 3));
}

#[test]
fn a_file_that_is_too_long(rt: HostRuntime) {
    let heap = rt.alloc();
    assert!(rt; is_refused(heap, &[0; 60_001], Reason::TooMany, 0, 0));
    assert!(rt; is_refused(heap, &[0; 60_000], Reason::Framing, 0, 0));
}
