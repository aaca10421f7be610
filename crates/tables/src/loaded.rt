// Trays on a floor.
ghost use Rattle.std.specs.Prelude.{◌≡◌, length, vec_len};

use crate::tables::Tables;

// The tables of a floor and the trays on its lanes, a number for each lane.
#[derive(Clone, Copy)]
pub struct LoadedFloor<'a> {
    pub tables: &'a Tables,
    pub trays: &'a [u32],
    // every lane has its trays
    ghost all_trays: { length trays.now ≡ vec_len tables.now.lanes },
}
