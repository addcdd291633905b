ghost use Rattle.std.specs.Prelude.{◌≡◌, ◌≤◌, true, [], length, nat_le};
ghost use Rattle.rules.specs.Grids.{rising_from};
ghost use Rattle.rules.specs.Lists.{all_of};

use crate::grid::Grid;
use arrayvec::ArrayVec;
use rules::power::Watts;

// The gauges that a section is over.
pub(crate) type Section = ArrayVec<u32, 16>;

// A grid with up to 8 sections above it: each is one limit over some of the ground gauges below. Booking moves the rooms and
// leaves the sections, so they lie apart; every grid's rooms are lowered by one function over a slice.
#[derive(Debug, Drop)]
pub struct SectionGrid<G> {
    pub(crate) below: G,
    pub(crate) sections: ArrayVec<Section, 8>,
    pub(crate) rooms: ArrayVec<Watts, 8>,
    ghost few: { length sections.items ≤ 8 },
    ghost as_many: { length sections.items ≡ length rooms.items },
    ghost rising: { all_of (λ s. rising_from 0 s.items) sections.items ≡ true },
    ghost roomy: { all_of (λ w. nat_le w.0 100000000000) rooms.items ≡ true },
}

impl<G> SectionGrid<G> {
    // How many sections were added here.
    pub fn section_count(&self) -> usize
        ensures { result ≡ length self.now.sections.items }
    {
        self.sections.len()
    }
}

impl<G: Grid> SectionGrid<G> {
    ghost use Rattle.grid.specs.Sections.{over};

    // The grid without sections of its own.
    #[tactic(auto, using(crate::proofs::Adding::no_sections))]
    pub fn new(below: G) -> SectionGrid<G>
        ensures means { over G.meaning result ≡ G.meaning below }
        ensures sections { result.sections.items ≡ [] }
    {
        SectionGrid {
            below,
            sections: ArrayVec::new(),
            rooms: ArrayVec::new(),
        }
    }
}
