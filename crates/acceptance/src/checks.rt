// Whether the plans of a floor answer what they must.
use crate::trial::Trial;
use calls::Unfit;
use plant::Plant;
use plantfile::read_plant;
use std::alloc::{AllocError, Global};

// Whether a floor's plans tell what is expected: one that is stepped to its end, one that is run, and one that is loaded.
pub fn agrees(heap: Global, file: &[u8], expected: &str) -> Result<bool, AllocError> {
    let (plant, verdict) = read_plant(heap, file);
    if verdict.is_err() {
        return Ok(false);
    }
    let mut stepped = Trial::open(heap, plant)?;
    let (again, _) = read_plant(heap, file);
    let mut ran = Trial::open(heap, again)?;
    Ok(stepped.steps_as(expected)? && ran.runs_as(&stepped)? && ran.loads_as(&stepped)?)
}

impl<P: Plant + Drop> Trial<P> {
    // Whether the moves of a fresh plan, and what it tells at its end, are as expected. It refuses to show a cut before that.
    fn steps_as(&mut self, expected: &str) -> Result<bool, AllocError> {
        let begins = !self.shows_cut()? && self.plan.moves() == 0 && self.plan.total() == 0;
        let mut text = String::new(self.heap);
        self.tell_moves(&mut text)?;
        self.tell_totals(&mut text)?;
        self.tell_state(&mut text)?;
        Ok(begins && text.as_str() == expected && self.plan.step().is_none())
    }

    // Whether a fresh plan that is run comes to the same end as one that was stepped, and a run of no steps makes none.
    fn runs_as(&mut self, stepped: &Trial<P>) -> Result<bool, AllocError> {
        let enough = self.enough();
        let none = self.plan.run(0);
        let all = self.plan.run(enough);
        let more = self.plan.run(1);
        let counts = none.moves == 0
            && !none.finished
            && all.moves == stepped.plan.moves()
            && all.finished
            && more.moves == 0
            && more.finished
            && self.plan.moves() == stepped.plan.moves();
        Ok(counts && self.same_state(stepped)?)
    }

    // Whether two plans tell the same total, trays and cut.
    fn same_state(&self, other: &Trial<P>) -> Result<bool, AllocError> {
        Ok(self.plan.total() == other.plan.total() && self.state()? == other.state()?)
    }

    // Whether a finished plan refuses loads of a wrong length and of one tray more than can be carried, which change nothing, and takes
    // the trays of the plan that was stepped, with which the next step is finished.
    fn loads_as(&mut self, stepped: &Trial<P>) -> Result<bool, AllocError> {
        let Some(mut trays) = stepped.trays()? else {
            return Ok(false);
        };
        if !self.refuses_more(trays.as_mut_slice())
            || !self.refuses_length(trays.as_slice())?
            || !self.same_state(stepped)?
        {
            return Ok(false);
        }
        let taken = self.plan.load(trays.as_slice()).is_ok();
        let opened = self.plan.moves() == 0 && !self.shows_cut()?;
        let ends = self.plan.step().is_none() && self.plan.moves() == 0;
        Ok(taken && opened && ends && self.same_state(stepped)?)
    }

    // Whether a plan refuses the most trays with one more on a lane, whichever it is.
    fn refuses_more(&mut self, trays: &mut [u32]) -> bool {
        // The lanes are taken by index, for the whole slice is loaded while one place of it is changed.
        for lane in 0..trays.len() {
            let found = trays[lane];
            trays[lane] = found.saturating_add(1);
            let answer = self.plan.load(trays);
            trays[lane] = found;
            if answer != Err(Unfit::Load) {
                return false;
            }
        }
        true
    }

    // Whether a plan refuses a load for one lane too many, and a buffer of that length.
    fn refuses_length(&mut self, trays: &[u32]) -> Result<bool, AllocError> {
        let mut longer = trays.to_vec(self.heap)?;
        longer.push(0)?;
        Ok(
            self.plan.load(longer.as_slice()) == Err(Unfit::Length)
                && self.plan.trays(longer.as_mut_slice()) == Err(Unfit::Length),
        )
    }
}
