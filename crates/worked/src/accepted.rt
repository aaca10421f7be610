// Files that are accepted, and what their plants answer.
use plant::{OffFloor, Plant};
use plantfile::read_plant;

// Two lanes from the stock to the despatch, of 3 and 4 trays.
const TWO_PLAIN_LANES: &[u8] = &[
    10, 0, 1, 0, 2, 0, 0, 0, 1, 0, 12, 0, 2, 0, 0, 0, 1, 0, 3, 0, 0, 0, 12, 0, 2, 0, 0, 0, 1, 0, 4,
    0, 0, 0,
];

// The same lanes, which share a gripper: together they take 5 trays out of the stock.
const TWO_LANES_WITH_A_TABLE: &[u8] = &[
    10, 0, 1, 0, 2, 0, 0, 0, 1, 0, 12, 0, 2, 0, 0, 0, 1, 0, 3, 0, 0, 0, 12, 0, 2, 0, 0, 0, 1, 0, 4,
    0, 0, 0, 22, 0, 3, 0, 0, 0, 0, 0, 0, 0, 3, 0, 0, 0, 4, 0, 0, 0, 5, 0, 0, 0,
];

// A table that bends nowhere: the two lanes take 7 trays together.
const TABLE_AT_ITS_LIMIT: &[u8] = &[
    10, 0, 1, 0, 2, 0, 0, 0, 1, 0, 12, 0, 2, 0, 0, 0, 1, 0, 3, 0, 0, 0, 12, 0, 2, 0, 0, 0, 1, 0, 4,
    0, 0, 0, 22, 0, 3, 0, 0, 0, 0, 0, 0, 0, 3, 0, 0, 0, 4, 0, 0, 0, 7, 0, 0, 0,
];

// Three lanes with grades 5, 5, 2.
const THREE_LANES_WITH_GRADES: &[u8] = &[
    10, 0, 1, 0, 2, 0, 0, 0, 1, 0, 12, 0, 2, 0, 0, 0, 1, 0, 9, 0, 0, 0, 12, 0, 2, 0, 0, 0, 1, 0, 9,
    0, 0, 0, 12, 0, 2, 0, 0, 0, 1, 0, 9, 0, 0, 0, 18, 0, 5, 0, 0, 0, 5, 0, 0, 0, 5, 0, 0, 0, 2, 0,
    0, 0,
];

// Two of the three lanes into the despatch share a gripper that takes one tray.
const GRIPPER_AT_THE_DESPATCH: &[u8] = &[
    10, 0, 1, 0, 4, 0, 0, 0, 3, 0, 12, 0, 2, 0, 0, 0, 1, 0, 1, 0, 0, 0, 12, 0, 2, 0, 0, 0, 2, 0, 1,
    0, 0, 0, 12, 0, 2, 0, 1, 0, 3, 0, 1, 0, 0, 0, 12, 0, 2, 0, 2, 0, 3, 0, 1, 0, 0, 0, 12, 0, 2, 0,
    1, 0, 3, 0, 1, 0, 0, 0, 26, 0, 4, 0, 7, 0, 2, 0, 0, 0, 64, 66, 15, 0, 0, 0, 1, 0, 0, 0, 1, 0,
    1, 0, 0, 0,
];

// Two of the three lanes out of the stock share a gripper that gives one tray.
const GRIPPER_AT_THE_STOCK: &[u8] = &[
    10, 0, 1, 0, 4, 0, 0, 0, 3, 0, 12, 0, 2, 0, 0, 0, 1, 0, 1, 0, 0, 0, 12, 0, 2, 0, 0, 0, 2, 0, 1,
    0, 0, 0, 12, 0, 2, 0, 0, 0, 1, 0, 1, 0, 0, 0, 12, 0, 2, 0, 1, 0, 3, 0, 1, 0, 0, 0, 12, 0, 2, 0,
    2, 0, 3, 0, 1, 0, 0, 0, 26, 0, 4, 0, 0, 0, 2, 0, 0, 0, 64, 66, 15, 0, 0, 0, 1, 0, 0, 0, 1, 0,
    1, 0, 0, 0,
];

#[test]
fn plain_lanes_add_up(rt: HostRuntime) {
    let (plant, verdict) = read_plant(rt.alloc(), TWO_PLAIN_LANES);
    assert_eq!(rt; verdict, Ok(()));
    assert_eq!(rt; plant.cap(0, 0), Ok(0));
    assert_eq!(rt; plant.cap(0, 1), Ok(3));
    assert_eq!(rt; plant.cap(0, 2), Ok(4));
    assert_eq!(rt; plant.cap(0, 3), Ok(7));
    assert_eq!(rt; plant.cap(3, 3), Ok(7));
}

#[test]
fn a_floor_is_told_whole(rt: HostRuntime) {
    let (plant, verdict) = read_plant(rt.alloc(), GRIPPER_AT_THE_DESPATCH);
    assert_eq!(rt; verdict, Ok(()));
    assert_eq!(rt; plant.stations(), 4);
    assert_eq!(rt; plant.lanes(), 5);
    assert_eq!(rt; plant.stock(), 0);
    assert_eq!(rt; plant.despatch(), 3);
    assert_eq!(rt; plant.ends(2), Ok((1, 3)));
    assert_eq!(rt; plant.width(7), Ok(3));
    assert_eq!(rt; plant.lane_at(7, 2), Ok(4));
}

#[test]
fn what_is_not_on_the_floor_is_refused(rt: HostRuntime) {
    let (plant, _) = read_plant(rt.alloc(), TWO_PLAIN_LANES);
    assert_eq!(rt; plant.ends(2), Err(OffFloor));
    assert_eq!(rt; plant.width(4), Err(OffFloor));
    assert_eq!(rt; plant.lane_at(0, 2), Err(OffFloor));
    assert_eq!(rt; plant.lane_at(1, 0), Err(OffFloor));
    assert_eq!(rt; plant.cap(0, 4), Err(OffFloor));
    assert_eq!(rt; plant.cap(1, 1), Err(OffFloor));
    assert_eq!(rt; plant.cap(1, 0), Ok(0));
}

#[test]
fn a_table_gives_its_numbers(rt: HostRuntime) {
    let (shared, verdict) = read_plant(rt.alloc(), TWO_LANES_WITH_A_TABLE);
    assert_eq!(rt; verdict, Ok(()));
    assert_eq!(rt; shared.cap(0, 3), Ok(5));
    assert_eq!(rt; shared.cap(3, 3), Ok(7));
    let (loose, verdict) = read_plant(rt.alloc(), TABLE_AT_ITS_LIMIT);
    assert_eq!(rt; verdict, Ok(()));
    assert_eq!(rt; loose.cap(0, 3), Ok(7));
}

#[test]
fn grades_add_up_by_the_number_of_lanes(rt: HostRuntime) {
    let (plant, verdict) = read_plant(rt.alloc(), THREE_LANES_WITH_GRADES);
    assert_eq!(rt; verdict, Ok(()));
    assert_eq!(rt; plant.cap(0, 4), Ok(5));
    assert_eq!(rt; plant.cap(0, 5), Ok(10));
    assert_eq!(rt; plant.cap(0, 7), Ok(12));
    assert_eq!(rt; plant.cap(3, 7), Ok(27));
}

#[test]
fn groups_bound_their_lanes(rt: HostRuntime) {
    let (despatch, verdict) = read_plant(rt.alloc(), GRIPPER_AT_THE_DESPATCH);
    assert_eq!(rt; verdict, Ok(()));
    assert_eq!(rt; despatch.cap(7, 3), Ok(1));
    assert_eq!(rt; despatch.cap(7, 5), Ok(2));
    assert_eq!(rt; despatch.cap(7, 7), Ok(2));
    let (stock, verdict) = read_plant(rt.alloc(), GRIPPER_AT_THE_STOCK);
    assert_eq!(rt; verdict, Ok(()));
    assert_eq!(rt; stock.cap(0, 3), Ok(1));
    assert_eq!(rt; stock.cap(0, 7), Ok(2));
}
