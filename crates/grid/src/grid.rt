ghost use Rattle.std.specs.Prelude.{◌≡◌};
ghost use Rattle.rules.specs.Grids.{Meaning, Lawful, gauges_of, paths_of, room_of, weight_of};
ghost use Rattle.grid.specs.Bookings.{Books};

use crate::question::GridQuestion;
use rules::fault::Fault;
use rules::power::{Mw, Watts};

// Network limits: gauges with their rooms, of which the first so many are ground, and what each path weighs on each gauge. An unknown path
// or gauge is told as 0. Only a booking moves a room, and no call here changes a count or a weight.
pub trait Grid {
    ghost meaning: { Self → Meaning };

    fn gauges(&self) -> usize
        ensures { result ≡ gauges_of (meaning self.now) };

    fn ground_gauges(&self) -> usize
        ensures { result ≡ (meaning self.now).grounds };

    fn paths(&self) -> usize
        ensures { result ≡ paths_of (meaning self.now) };

    fn room(&self, gauge: usize) -> Watts
        ensures { result ≡ room_of (meaning self.now) gauge };

    // In W for each MW sent along the path.
    fn weight(&self, path: usize, gauge: usize) -> Watts
        ensures { result ≡ weight_of (meaning self.now) path gauge };

    // So many MW more along the path, or the first question that they fail.
    fn book(&mut self, path: usize, mw: Mw) -> Result<(), Fault<GridQuestion>>
        ensures { Books (meaning self.old) (meaning self.new) path mw result };

    ghost lawful: { (g : Self) → Lawful (meaning g) };
}
