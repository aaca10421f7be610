// Whether the numbers of a limit keep the rules and the laws, check by check in the order in which a file is judged.
ghost use Rattle.std.specs.Prelude.{◌≡◌, ℕ, ◌≤◌};
ghost use Rattle.floor.specs.Numbers.{most_on_side};
ghost use Rattle.plantformat.specs.Rules.{all_at_most};
ghost use Rattle.plantformat.specs.Judge.{longs, table_read, grades_read};
ghost use Rattle.limits.specs.Checks.{longs_checked, groups_checked};
ghost use Rattle.limits.specs.Told.{limit_read, allowed};

use crate::Limit;
use crate::grades::steps_fall;
use crate::groups::Groups;
use crate::numbers::Longs;
use crate::tables::CapTable;
use plant::TOP_CAP;
use plantformat::{FloorFault, Law, LimitFault, MOST_GROUPS, RecordFault, TOP_LANE};

// Every four-byte number is at most `top`.
fn longs_at_most(bytes: &[u8], top: u32) -> bool
    ensures { result ≡ all_at_most top (longs bytes.now) }
{
    Longs(bytes).all(|number| number <= top)
}

// There are so many four-byte numbers, and none is above `top`.
fn check_longs(bytes: &[u8], count: usize, top: u32, at: usize) -> Result<(), RecordFault>
    requires { count ≤ 256 }
    ensures { result ≡ longs_checked count top at bytes.now }
{
    if bytes.len() != 4 * count {
        return Err(RecordFault::Size { at });
    }
    if !longs_at_most(bytes, top) {
        return Err(RecordFault::Range { at });
    }
    Ok(())
}

// A table: a cap for each set, then the laws.
fn check_table(caps: &[u8], width: usize, at: usize) -> Result<(), FloorFault>
    requires { width ≤ most_on_side }
    ensures { (s : ℕ) → result ≡ allowed (table_read width at s caps.now) }
{
    check_longs(caps, 1 << width, TOP_CAP, at)?;
    CapTable { width, caps }.check_laws(at)?;
    Ok(())
}

// Groups: how many there are, then the size, then the parents, bounds and members.
fn check_groups(count: usize, numbers: &[u8], width: usize, at: usize) -> Result<(), RecordFault>
    requires { width ≤ most_on_side }
    ensures { result ≡ groups_checked count width at numbers.now }
{
    if count < 1 || count > MOST_GROUPS {
        return Err(RecordFault::Range { at });
    }
    if numbers.len() != 6 * count + 2 * width {
        return Err(RecordFault::Size { at });
    }
    let groups = Groups {
        count,
        width,
        numbers,
    };
    if !groups.parents_keep() || !groups.bounds_low() || !groups.members_grouped() {
        return Err(RecordFault::Range { at });
    }
    Ok(())
}

// Grades: one for each position, then law 3.
#[tactic(auto, using(crate::proofs::Checked::length_longs))]
fn check_grades(steps: &[u8], width: usize, at: usize) -> Result<(), FloorFault>
    requires { width ≤ most_on_side }
    ensures { (s : ℕ) → result ≡ allowed (grades_read width at s steps.now) }
{
    check_longs(steps, width, TOP_LANE, at)?;
    if !steps_fall(steps) {
        return Err(FloorFault::Limit(LimitFault::Breaks {
            at,
            law: Law::Bends,
        }));
    }
    Ok(())
}

// A limit of a side of `width` lanes, whose record lies at the place `at` of the file.
pub fn check_limit(limit: Limit, width: usize, at: usize) -> Result<(), FloorFault>
    requires { width ≤ most_on_side }
    ensures { result ≡ allowed (limit_read width at limit.entry) }
{
    match limit {
        Limit::Table { caps, .. } => check_table(caps, width, at)?,
        Limit::Groups { count, numbers, .. } => check_groups(count, numbers, width, at)?,
        Limit::Grades { steps, .. } => check_grades(steps, width, at)?,
    }
    Ok(())
}
