ghost use Rattle.std.specs.Prelude.{◌≡◌};
ghost use Rattle.rules.specs.Grids.{carries_one, has_room};

use crate::grid::Grid;

// Whether every gauge has at least the path's weight left.
fn has_room_for_one<G: Grid>(grid: &G, path: usize) -> bool
    ensures { result ≡ has_room (G.meaning grid.now) path (record { 0 = 1 }) }
{
    (0..grid.gauges()).all(|gauge| grid.weight(path, gauge) <= grid.room(gauge))
}

// Whether a known path can carry 1 MW.
pub fn carries_one<G: Grid>(grid: &G, path: usize) -> bool
    ensures { result ≡ carries_one (G.meaning grid.now) path }
{
    path < grid.paths() && has_room_for_one(grid, path)
}
