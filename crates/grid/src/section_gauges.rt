ghost use Rattle.std.specs.Prelude.{◌≡◌, ◌<◌, true, false, MatchOption};
ghost use Rattle.rules.specs.Grids.{paths_of, has_room};
ghost use Rattle.grid.specs.Bookings.{Books};
ghost use Rattle.grid.specs.Sections.{over, section_weights, sections_fit, FittingWeights};
ghost use Rattle.grid.specs.Stacks;

use crate::grid::Grid;
use crate::question::GridQuestion;
use crate::rooms::{all_enough, lower_first};
use crate::sections::SectionGrid;
use arrayvec::ArrayVec;
use rules::fault::Fault;
use rules::power::{Mw, Watts};

impl<G: Grid> SectionGrid<G> {
    // What a path weighs on each section, if every section that counts has room for so many MW along it.
    fn fitting_weights(&self, path: usize, mw: Mw) -> Option<ArrayVec<Watts, 8>>
        ensures { MatchOption result (path < paths_of (G.meaning self.now.below) → has_room (over G.meaning self.now) path mw ≡ false) (FittingWeights G.meaning self.now path mw) }
    {
        let above = self.layers().1;
        let weights = self.section_weights(path);
        if !all_enough(
            &self.rooms.as_slice()[..above],
            &weights.as_slice()[..above],
            mw,
        ) {
            return None;
        }
        Some(weights)
    }

    // Books on the grid below, and takes the MW of the sections if they are booked there.
    fn book_through(
        &mut self,
        path: usize,
        weights: &[Watts],
        mw: Mw,
    ) -> Result<(), Fault<GridQuestion>>
        requires path { path < paths_of (G.meaning self.old.below) }
        requires weights { weights.now ≡ section_weights (G.meaning self.old.below) self.old.sections.items path }
        requires enough { sections_fit G.meaning self.old path mw ≡ true }
        ensures books { Books (over G.meaning self.old) (over G.meaning self.new) path mw result }
        ensures sections { self.new.sections ≡ self.old.sections }
    {
        let above = self.layers().1;
        self.below.book(path, mw)?;
        lower_first(self.rooms.as_mut_slice(), &weights[..above], mw);
        Ok(())
    }
}

impl<G: Grid> Grid for SectionGrid<G> {
    ghost meaning = { over G.Grid.meaning };

    ghost lawful = { λ s. Stacks.lawful G.Grid.meaning s (G.Grid.lawful s.below) };

    fn gauges(&self) -> usize {
        let (below, above) = self.layers();
        below + above
    }

    fn ground_gauges(&self) -> usize {
        self.below.ground_gauges()
    }

    fn paths(&self) -> usize {
        self.below.paths()
    }

    fn room(&self, gauge: usize) -> Watts {
        let (below, above) = self.layers();
        if gauge < below {
            return self.below.room(gauge);
        }
        let rooms = &self.rooms.as_slice()[..above];
        rooms.get(gauge - below).copied().unwrap_or_default()
    }

    fn weight(&self, path: usize, gauge: usize) -> Watts {
        let (under, above) = self.layers();
        if gauge < under {
            return self.below.weight(path, gauge);
        }
        let sections = &self.sections.as_slice()[..above];
        match sections.get(gauge - under) {
            Some(section) => self.section_weight(path, section),
            None => Watts(0),
        }
    }

    fn book(&mut self, path: usize, mw: Mw) -> Result<(), Fault<GridQuestion>>
        ensures books { Books (over G.meaning self.old) (over G.meaning self.new) path mw result }
        ensures sections { self.new.sections ≡ self.old.sections }
    {
        if path >= self.below.paths() {
            return Err(GridQuestion::BookingPath.into());
        }
        let Some(weights) = self.fitting_weights(path, mw) else {
            return Err(GridQuestion::BookingRoom.into());
        };
        self.book_through(path, weights.as_slice(), mw)
    }
}
