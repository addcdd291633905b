ghost use Rattle.std.specs.Prelude.{◌≡◌, ◌<◌, true};
ghost use Rattle.rules.specs.Grids.{paths_of, has_room, booked};
ghost use Rattle.grid.specs.Legs.{on_legs};
ghost use Rattle.grid.specs.LegLaws;

use crate::grid::Grid;
use crate::legs::LegGrid;
use crate::question::GridQuestion;
use crate::rooms::{all_enough, lower};
use rules::fault::Fault;
use rules::power::{Mw, Watts};

impl LegGrid {
    // Whether every leg has room for so many MW along a known path.
    fn legs_enough(&self, path: usize, mw: Mw) -> bool
        requires { path < paths_of (on_legs self.now) }
        ensures { result ≡ has_room (on_legs self.now) path mw }
    {
        all_enough(self.rooms.as_slice(), self.rows[path].on.as_slice(), mw)
    }

    // Takes so many MW along a known path of the legs' rooms.
    fn lower_legs(&mut self, path: usize, mw: Mw)
        requires path { path < paths_of (on_legs self.old) }
        requires enough { has_room (on_legs self.old) path mw ≡ true }
        ensures { on_legs self.new ≡ booked (on_legs self.old) path mw }
    {
        lower(self.rooms.as_mut_slice(), self.rows[path].on.as_slice(), mw);
    }
}

impl Grid for LegGrid {
    ghost meaning = { on_legs };

    ghost lawful = { LegLaws.lawful };

    fn gauges(&self) -> usize {
        self.rooms.len()
    }

    fn ground_gauges(&self) -> usize {
        self.gauges()
    }

    fn paths(&self) -> usize {
        self.rows.len()
    }

    fn room(&self, gauge: usize) -> Watts {
        self.rooms.get(gauge).copied().unwrap_or_default()
    }

    #[tactic(auto, using(crate::specs::LegLaws::unknown_path, crate::specs::LegLaws::unknown_leg))]
    fn weight(&self, path: usize, gauge: usize) -> Watts {
        if path >= self.paths() || gauge >= self.gauges() {
            return Watts(0);
        }
        self.rows[path].on[gauge]
    }

    fn book(&mut self, path: usize, mw: Mw) -> Result<(), Fault<GridQuestion>> {
        if path >= self.paths() {
            return Err(GridQuestion::BookingPath.into());
        }
        if !self.legs_enough(path, mw) {
            return Err(GridQuestion::BookingRoom.into());
        }
        self.lower_legs(path, mw);
        Ok(())
    }
}
