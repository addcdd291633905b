ghost use Rattle.std.specs.Prelude.{◌≤◌};
ghost use Rattle.grid.specs.Empties.{empty_grid, empty_lawful};

use crate::grid::Grid;
use crate::question::GridQuestion;
use rules::fault::Fault;
use rules::power::{Mw, Watts};

// For tests: a grid of so many ground gauges without room, and no paths.
#[derive(Debug, Drop)]
pub(crate) struct Wide {
    count: usize,
    ghost few: { count ≤ 256 },
}

impl Wide {
    pub(crate) fn new(count: u8) -> Wide {
        Wide {
            count: count as usize,
        }
    }
}

impl Grid for Wide {
    ghost meaning = { λ w. empty_grid w.count };

    ghost lawful = { λ w. empty_lawful w.count w.few };

    fn gauges(&self) -> usize {
        self.count
    }

    fn ground_gauges(&self) -> usize {
        self.count
    }

    fn paths(&self) -> usize {
        0
    }

    fn room(&self, _gauge: usize) -> Watts {
        Watts(0)
    }

    fn weight(&self, _path: usize, _gauge: usize) -> Watts {
        Watts(0)
    }

    fn book(&mut self, _path: usize, _mw: Mw) -> Result<(), Fault<GridQuestion>> {
        Err(GridQuestion::BookingPath.into())
    }
}
