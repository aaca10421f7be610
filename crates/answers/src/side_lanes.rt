// The lanes of a side of a file plant, and the caps of their sets.
ghost use Rattle.std.specs.Prelude.{◌≡◌, ℕ, ◌*◌, ◌^◌, ◌<◌, ◌≤◌, None, length, slice_index};
ghost use Rattle.arrayvec.specs.ArrayVec.{array_vec_len};
ghost use Rattle.floor.specs.Floor.{width};
ghost use Rattle.floor.specs.Numbers.{most_on_side};
ghost use Rattle.plantformat.specs.Numbers.{top_lane};
ghost use Rattle.answers.specs.Content.{file_meaning};
ghost use Rattle.answers.specs.Answers.{Lists, owns, Owns, limit_cap, side_cap};

use crate::file_plant::FilePlant;
use arrayvec::ArrayVec;
use limits::cap_of;
use plant::MOST_ON_SIDE;
use setcodes::contains;

// A side of a file plant, with the numbers of its lanes by position, and how many there are.
#[derive(Clone, Copy)]
pub struct SideLanes<'p, 'a> {
    pub plant: &'p FilePlant<'a>,
    pub side: usize,
    pub numbers: [usize; MOST_ON_SIDE],
    pub count: usize,
    // the side is on the floor
    ghost on_floor: { side < 2 * plant.now.head.stations },
    // the lanes are all of the side's, in lane order
    ghost lists: { Lists (file_meaning plant.now).floor side numbers count },
}

impl SideLanes<'_, '_> {
    // How many lanes the side has.
    pub fn width(&self) -> usize
        ensures value { result ≡ width (file_meaning self.now.plant.now).floor self.now.side }
        ensures few { result ≤ most_on_side }
    {
        self.count
    }

    // The numbers of the lanes, by position.
    pub(crate) fn lanes(&self) -> &[usize]
        ensures { Lists (file_meaning self.now.plant.now).floor self.now.side result.now (length result.now) }
    {
        &self.numbers[..self.count]
    }

    // The own cap of the lane at a position.
    fn own_at(&self, position: usize) -> u32
        requires { position < self.now.count }
        ensures value { result ≡ owns self.now.plant.now self.now.side position }
        ensures low { result ≤ top_lane }
    {
        self.plant.lanes[self.numbers[position]].own
    }

    // The own caps of the lanes, by position.
    fn own_caps(&self) -> ArrayVec<u32, MOST_ON_SIDE>
        ensures owns { Owns self.now.plant.now self.now.side result.items }
        ensures low { (p : ℕ) → p < array_vec_len result → slice_index result.items p ≤ top_lane }
    {
        let mut own = ArrayVec::new();
        for lane in self.lanes() {
            own.push(self.plant.lanes[*lane].own);
        }
        own
    }

    // The cap of a set of the lanes of a side without a limit: the sum of the lanes' own caps.
    fn plain_cap(&self, set: usize) -> u32
        ensures { result ≡ limit_cap self.now.plant.now self.now.side None set }
    {
        (0..self.count)
            .filter(|position| contains(set, *position))
            .map(|position| self.own_at(position))
            .sum()
    }

    // The cap of a set of the lanes, by the limit of the side.
    pub(crate) fn cap(&self, set: usize) -> u32
        requires { set < 2 ^ width (file_meaning self.now.plant.now).floor self.now.side }
        ensures { result ≡ side_cap self.now.plant.now self.now.side set }
    {
        match self.plant.limit_of(self.side) {
            Some(limit) => cap_of(limit, &self.own_caps(), set),
            None => self.plain_cap(set),
        }
    }
}
