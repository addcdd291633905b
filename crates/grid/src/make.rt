ghost use Rattle.std.specs.Prelude.{◌≡◌, map, IfOk};
ghost use Rattle.rules.specs.LegGrids.{leg_grid, limit_room};
ghost use Rattle.sheet.specs.Sheets.{drawing};
ghost use Rattle.grid.specs.Legs.{on_legs, RoomsOf, RowsOf};

use crate::legs::{LegGrid, Row};
use crate::weigh::row_of;
use rules::power::Watts;
use sheet::leg::Leg;
use sheet::sheet::Sheet;
use std::alloc::{AllocError, Global};

// The limits of some legs as rooms.
fn rooms_of(heap: Global, legs: &[Leg]) -> Result<Vec<Watts>, AllocError>
    ensures { IfOk result (λ v. v.items ≡ map (λ l. limit_room l.limit.mw) legs.now) }
{
    legs.iter().map(|leg| Watts::from(leg.limit)).collect(heap)
}

// Each leg's limit as a room.
#[tactic(auto, using(crate::proofs::Making::sheet_rooms))]
fn leg_rooms(heap: Global, sheet: &Sheet) -> Result<Vec<Watts>, AllocError>
    ensures { IfOk result (λ v. RoomsOf (drawing sheet.now) v.items) }
{
    rooms_of(heap, sheet.legs())
}

// Each path's weights.
fn leg_rows(heap: Global, sheet: &Sheet) -> Result<Vec<Row>, AllocError>
    ensures { IfOk result (λ v. RowsOf (drawing sheet.now) v.items) }
{
    let mut rows = Vec::with_capacity(heap, sheet.path_count())?;
    for path in sheet.paths() {
        rows.push(row_of(heap, path.passages(), sheet.leg_count())?)?;
    }
    Ok(rows)
}

impl LegGrid {
    // The grid of a sheet's legs, with each leg's limit as its first room.
    #[tactic(auto, using(crate::proofs::Making::even_rows, crate::proofs::Making::made_of))]
    pub fn new(heap: Global, sheet: &Sheet) -> Result<LegGrid, AllocError>
        ensures { IfOk result (λ g. on_legs g ≡ leg_grid (drawing sheet.now)) }
    {
        let rooms = leg_rooms(heap, sheet)?;
        let rows = leg_rows(heap, sheet)?;
        Ok(LegGrid { rooms, rows })
    }
}
