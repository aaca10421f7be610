// The rows of the tables, as a plant answers.
ghost use Rattle.std.specs.Prelude.{◌≡◌, ◌^◌, ◌<◌, ◌≤◌, ◌++◌, take, length, IfOk, OnOk};
ghost use Rattle.floor.specs.Numbers.{most_on_side};
ghost use Rattle.floor.specs.Floor.{sides as all_sides, width as side_width, end_of, station_of, lane_at};
ghost use Rattle.tables.specs.Told.{lanes_on, caps_on, SideTold};

use crate::tables::{TableSide, sets_of};
use plant::{MOST_ON_SIDE, Plant};
use std::alloc::AllocError;

// A side of a plant, and how many lanes it has.
#[derive(Drop)]
pub(crate) struct PlantSide<'a, P: Plant> {
    plant: &'a P,
    side: usize,
    width: usize,
    // the side is on the floor
    ghost on_floor: { side < all_sides (P.meaning plant.now).floor },
    // it has as many lanes
    ghost all: { width ≡ side_width (P.meaning plant.now).floor side },
    // it has not too many
    ghost few: { width ≤ most_on_side },
}

impl<'a, P: Plant> PlantSide<'a, P> {
    // A side of the floor.
    pub(crate) fn new(plant: &'a P, side: usize) -> PlantSide<'a, P>
        requires { side < all_sides (P.meaning plant.now).floor }
        ensures plant { result.plant.now ≡ plant.now }
        ensures side { result.side ≡ side }
    {
        let width = plant.width(side).unwrap();
        PlantSide { plant, side, width }
    }

    // The lane at a position.
    fn lane_at(&self, position: usize) -> usize
        requires { position < self.now.width }
        ensures { result ≡ lane_at (P.meaning self.now.plant.now).floor (end_of self.now.side) (station_of self.now.side) position }
    {
        self.plant.lane_at(self.side, position).unwrap()
    }

    // The cap of a set.
    fn cap(&self, set: usize) -> u32
        requires { set < 2 ^ self.now.width }
        ensures { result ≡ (P.meaning self.now.plant.now).cap (end_of self.now.side) (station_of self.now.side) set }
    {
        self.plant.cap(self.side, set).unwrap()
    }

    // The numbers of the lanes, by position. The places past the last lane stay 0, so the loop goes over the positions.
    fn numbers(&self) -> [usize; MOST_ON_SIDE]
        ensures { take self.now.width result ≡ lanes_on (P.meaning self.now.plant.now).floor self.now.side }
    {
        let mut numbers = [0; MOST_ON_SIDE];
        for position in 0..self.width {
            numbers[position] = self.lane_at(position);
        }
        numbers
    }

    // Adds the caps of the sets, in the order of their codes.
    fn add_caps(&self, caps: &mut Vec<u32>) -> Result<(), AllocError>
        ensures { OnOk result (caps.new.items ≡ caps.old.items ++ caps_on (P.meaning self.now.plant.now) self.now.side) }
    {
        for set in 0..sets_of(self.width) {
            caps.push(self.cap(set))?;
        }
        Ok(())
    }

    // The row of the side, whose caps are added to `caps`.
    pub(crate) fn table(&self, caps: &mut Vec<u32>) -> Result<TableSide, AllocError>
        ensures lanes { IfOk result (λ row. SideTold (P.meaning self.now.plant.now).floor self.now.side row) }
        ensures start { IfOk result (λ row. row.start ≡ length caps.old.items) }
        ensures caps { OnOk result (caps.new.items ≡ caps.old.items ++ caps_on (P.meaning self.now.plant.now) self.now.side) }
    {
        let start = caps.len();
        self.add_caps(caps)?;
        Ok(TableSide {
            width: self.width,
            numbers: self.numbers(),
            start,
        })
    }
}
