ghost use Rattle.std.specs.Prelude.{◌≡◌, ◌≤◌, length, if◌then◌else◌, filter, nat_lt};
ghost use Rattle.rules.specs.Grids.{weight_of, weights_of, weight_over};
ghost use Rattle.grid.specs.Sections.{ground_in, section_weights};

use crate::grid::Grid;
use crate::sections::{Section, SectionGrid};
use arrayvec::ArrayVec;
use rules::power::Watts;

impl<G: Grid> SectionGrid<G> {
    // What a path weighs on a ground gauge; nothing on any other.
    fn ground_weight(&self, path: usize, gauge: usize) -> Watts
        ensures value { result.0 ≡ (if nat_lt gauge (G.meaning self.now.below).grounds then (weight_of (G.meaning self.now.below) path gauge).0 else 0) }
        ensures bound { result.0 ≤ 8000000 }
    {
        if gauge >= self.below.ground_gauges() {
            return Watts(0);
        }
        self.below.weight(path, gauge)
    }

    // What a path weighs on some gauges together, of which only the ground gauges count.
    fn weight_over(&self, path: usize, gauges: &[u32]) -> Watts
        requires { length gauges.now ≤ 16 }
        ensures { result ≡ weight_over (filter (λ k. nat_lt k (G.meaning self.now.below).grounds) gauges.now) (weights_of (G.meaning self.now.below) path) }
    {
        let mut sum = 0;
        for gauge in gauges {
            sum += self.ground_weight(path, *gauge as usize).0;
        }
        Watts(sum)
    }

    // What a path weighs on a section.
    pub(crate) fn section_weight(&self, path: usize, section: &Section) -> Watts
        ensures { result ≡ weight_over (ground_in (G.meaning self.now.below).grounds section.now) (weights_of (G.meaning self.now.below) path) }
    {
        self.weight_over(path, section.as_slice())
    }

    // What a path weighs on each section.
    pub(crate) fn section_weights(&self, path: usize) -> ArrayVec<Watts, 8>
        ensures { result.items ≡ section_weights (G.meaning self.now.below) self.now.sections.items path }
    {
        let mut weights = ArrayVec::new();
        for section in self.sections.as_slice() {
            weights.push(self.section_weight(path, section));
        }
        weights
    }
}
