ghost use Rattle.std.specs.Prelude.{◌≡◌, ◌+◌, take};
ghost use Rattle.rules.specs.GridLaws.{Extension};
ghost use Rattle.rules.specs.Grids.{gauges_of};
ghost use Rattle.grid.specs.Sections.{overs, here, over};

use crate::grid::Grid;
use crate::sections::SectionGrid;

impl<G: Grid> SectionGrid<G> {
    // How many gauges there are below, and how many sections count above them.
    pub(crate) fn layers(&self) -> (usize, usize)
        ensures below { result.0 ≡ gauges_of (G.meaning self.now.below) }
        ensures above { result.1 ≡ here G.meaning self.now }
        ensures in_all { result.0 + result.1 ≡ gauges_of (over G.meaning self.now) }
        ensures extension { Extension (G.meaning self.now.below) (overs (G.meaning self.now.below) self.now.sections.items (here G.meaning self.now)) (take (here G.meaning self.now) self.now.rooms.items) }
    {
        let below = self.below.gauges();
        (below, self.sections.len().min(256 - below))
    }
}
