// The moves of plans over a line of three stations with two lanes between neighbours and grades 5 and 2.
use lines::{LinePlant, make_line};
use piles::{Ceiling, Closing};
use plan::Plan;
use plant::Plant;
use std::alloc::Global;
use std::test::Fail;

// The line, which is accepted.
fn short_line() -> Result<LinePlant, Fail> {
    let (line, verdict) = make_line(3, 2, &[5, 2]);
    if verdict.is_err() {
        return Err(Fail::new("the line is refused"));
    }
    Ok(line)
}

// A plan over the plant makes these two moves, of two lanes each, and is finished with them.
fn makes_two_moves<P: Plant + Drop>(
    heap: Global,
    plant: P,
    first: u32,
    second: u32,
) -> Result<(), Fail> {
    let Ok(mut plan) = Plan::open(heap, plant) else {
        return Err(Fail::new("no memory"));
    };
    if plan.step() != Some((first, 2)) || plan.step() != Some((second, 2)) || plan.step() != None {
        return Err(Fail::new("other moves"));
    }
    if plan.total() != u64::from(first) + u64::from(second) {
        return Err(Fail::new("another total"));
    }
    Ok(())
}

#[test]
fn a_line_moves_its_grades_one_by_one(rt: HostRuntime) -> Result<(), Fail> {
    makes_two_moves(rt.alloc(), short_line()?, 5, 2)
}

#[test]
fn a_ceiling_cuts_the_second_move(rt: HostRuntime) -> Result<(), Fail> {
    let mut pile = Ceiling::new(short_line()?);
    assert_eq!(rt; pile.set(0, 6), Ok(()));
    makes_two_moves(rt.alloc(), pile, 5, 1)
}

#[test]
fn a_later_ceiling_replaces_the_first(rt: HostRuntime) -> Result<(), Fail> {
    let mut pile = Ceiling::new(short_line()?);
    assert_eq!(rt; pile.set(0, 3), Ok(()));
    assert_eq!(rt; pile.set(0, 6), Ok(()));
    makes_two_moves(rt.alloc(), pile, 5, 1)
}

#[test]
fn a_closed_position_leaves_one_move(rt: HostRuntime) -> Result<(), Fail> {
    let mut pile = Closing::new(short_line()?);
    assert_eq!(rt; pile.close(0, 1), Ok(()));
    let Ok(mut plan) = Plan::open(rt.alloc(), pile) else {
        return Err(Fail::new("no memory"));
    };
    assert_eq!(rt; plan.step(), Some((5, 2)));
    assert_eq!(rt; plan.step(), None);
    assert_eq!(rt; plan.total(), 5);
    Ok(())
}
