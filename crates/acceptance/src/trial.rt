// A plan that is tried, and what it tells, as text: its moves one by one, and its readings.
use plan::Plan;
use plant::Plant;
use std::alloc::{AllocError, Global};

// A plan above a plant with so many lanes and stations. What is told of it lies in `heap`.
#[derive(Drop)]
pub struct Trial<P: Plant> {
    pub heap: Global,
    pub lanes: usize,
    pub stations: usize,
    pub plan: Plan<P>,
}

impl<P: Plant + Drop> Trial<P> {
    // A plan with no trays above the plant.
    pub fn open(heap: Global, plant: P) -> Result<Trial<P>, AllocError> {
        let lanes = plant.lanes();
        let stations = plant.stations();
        let plan = Plan::open(heap, plant)?;
        Ok(Trial {
            heap,
            lanes,
            stations,
            plan,
        })
    }

    // One more than the most moves that can follow one another on a floor of 64 lanes or fewer.
    pub fn enough(&self) -> u64 {
        let m = self.lanes.min(64) as u64;
        2 * m * m * m + 1
    }

    // The trays of each lane, or nothing where the reading is refused.
    pub fn trays(&self) -> Result<Option<Vec<u32>>, AllocError> {
        let mut trays = vec![in self.heap; 0u32; self.lanes]?;
        match self.plan.trays(trays.as_mut_slice()) {
            Ok(()) => Ok(Some(trays)),
            Err(_) => Ok(None),
        }
    }

    // The byte of each lane and of each station, which show the cut, or nothing where the reading is refused.
    fn cut(&self) -> Result<Option<(Vec<u8>, Vec<u8>)>, AllocError> {
        let mut marks = vec![in self.heap; 0u8; self.lanes]?;
        let mut near = vec![in self.heap; 0u8; self.stations]?;
        match self.plan.cut(marks.as_mut_slice(), near.as_mut_slice()) {
            Ok(()) => Ok(Some((marks, near))),
            Err(_) => Ok(None),
        }
    }

    // Whether the plan shows a cut.
    pub fn shows_cut(&self) -> Result<bool, AllocError> {
        Ok(self.cut()?.is_some())
    }

    // Makes steps to the end of the plan, as many as are enough, and tells each move.
    pub fn tell_moves(&mut self, text: &mut String) -> Result<(), AllocError> {
        let mut before = vec![in self.heap; 0u32; self.lanes]?;
        for _ in 0..self.enough() {
            let Some((amount, length)) = self.plan.step() else {
                return Ok(());
            };
            write!(text, "{amount}/{length}={}", self.plan.total())?;
            let Some(after) = self.trays()? else {
                return Ok(());
            };
            tell_changes(text, before.as_slice(), after.as_slice(), amount)?;
            write!(text, " ")?;
            before = after;
        }
        Ok(())
    }

    // The total and the number of moves.
    pub fn tell_totals(&self, text: &mut String) -> Result<(), AllocError> {
        write!(
            text,
            "total {} moves {} ",
            self.plan.total(),
            self.plan.moves()
        )
    }

    // The trays of each lane and the cut, or `refused` where a reading is refused.
    pub fn tell_state(&self, text: &mut String) -> Result<(), AllocError> {
        let (Some(trays), Some((marks, near))) = (self.trays()?, self.cut()?) else {
            return write!(text, "refused");
        };
        write!(text, "trays")?;
        for n in trays.iter() {
            write!(text, " {n}")?;
        }
        write!(text, " cut ")?;
        for mark in marks.iter() {
            text.push(char::from(*mark))?;
        }
        write!(text, " near ")?;
        for b in near.iter() {
            text.push(near_digit(*b))?;
        }
        Ok(())
    }

    // The trays of each lane and the cut, as a text of their own.
    pub fn state(&self) -> Result<String, AllocError> {
        let mut text = String::new(self.heap);
        self.tell_state(&mut text)?;
        Ok(text)
    }
}

// Tells on which lanes the trays rose or fell by the amount of a move, and with `?` on which they changed otherwise.
fn tell_changes(
    text: &mut String,
    before: &[u32],
    after: &[u32],
    amount: u32,
) -> Result<(), AllocError> {
    for (lane, (was, is)) in before.iter().zip(after).enumerate() {
        if was != is {
            write!(text, "{}{lane}", sign(*was, *is, amount))?;
        }
    }
    Ok(())
}

// How a number of trays changed.
fn sign(was: u32, is: u32, amount: u32) -> char {
    if was.checked_add(amount) == Some(is) {
        '+'
    } else if is.checked_add(amount) == Some(was) {
        '-'
    } else {
        '?'
    }
}

// The digit that tells whether a station is near.
fn near_digit(b: u8) -> char {
    match b {
        0 => '0',
        1 => '1',
        _ => '?',
    }
}
