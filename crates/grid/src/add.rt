ghost use Rattle.std.specs.Prelude.{◌≡◌, [], ◌∷◌, ◌++◌, Ok, Err, length, IfOk, MatchResult};
ghost use Rattle.rules.specs.Grids.{gauges_of};
ghost use Rattle.rules.specs.LegGrids.{limit_room};
ghost use Rattle.rules.specs.Questions.{Checked};
ghost use Rattle.grid.specs.SectionAsks.{gauges_answer, section_questions, Addable, OneSectionMore, Adds};
ghost use Rattle.grid.specs.Sections.{over};

use crate::grid::Grid;
use crate::question::GridQuestion;
use crate::sections::{Section, SectionGrid};
use arrayvec::ArrayVec;
use rules::fault::Fault;
use rules::limit::Limit;
use rules::power::Watts;

// The section over these gauges, if there are 1 to 16, each ground and above the one before it; or else the place of the first that
// is not, 0 where their count offends.
fn section_over(grounds: usize, gauges: &[u32]) -> Result<Section, usize>
    ensures answer { MatchResult result (λ _. gauges_answer grounds gauges.now ≡ Ok tt) (λ place. gauges_answer grounds gauges.now ≡ Err place) }
    ensures gauges { IfOk result (λ s. s.items ≡ gauges.now) }
{
    if gauges.is_empty() || gauges.len() > 16 {
        return Err(0);
    }
    let mut section = ArrayVec::new();
    let mut least = 0;
    for (i, gauge) in gauges.iter().enumerate() {
        let number = *gauge as usize;
        if number < least || number >= grounds {
            return Err(i + 1);
        }
        section.push(*gauge);
        least = number + 1;
    }
    Ok(section)
}

impl<G: Grid> SectionGrid<G> {
    // The section over these gauges, and its limit, if they may be added.
    fn check_section(
        &self,
        limit: u32,
        gauges: &[u32],
    ) -> Result<(Section, Limit), Fault<GridQuestion>>
        ensures { Checked (section_questions (length self.now.sections.items) (over G.meaning self.now) gauges.now limit) (λ p. Addable G.meaning self.now gauges.now limit p.0 p.1) result }
    {
        if self.sections.is_full() || self.gauges() >= 256 {
            return Err(GridQuestion::SectionCount.into());
        }
        let section = section_over(self.below.ground_gauges(), gauges).map_err(|place| Fault {
            question: GridQuestion::SectionGauges,
            place,
        })?;
        let limit = Limit::new(limit).ok_or(GridQuestion::SectionLimit)?;
        Ok((section, limit))
    }

    // The section and its room, behind those that are there.
    fn put(&mut self, section: Section, limit: Limit)
        requires { Addable G.meaning self.old section.items limit.mw section limit }
        ensures below { self.new.below ≡ self.old.below }
        ensures sections { self.new.sections.items ≡ self.old.sections.items ++ (section ∷ []) }
        ensures rooms { self.new.rooms.items ≡ self.old.rooms.items ++ (limit_room limit.mw ∷ []) }
    {
        self.sections.push(section);
        self.rooms.push(Watts::from(limit));
    }

    // One section more, and the number of its gauge.
    fn push_section(&mut self, section: Section, limit: Limit) -> usize
        requires { Addable G.meaning self.old section.items limit.mw section limit }
        ensures number { result ≡ gauges_of (over G.meaning self.old) }
        ensures more { OneSectionMore G.meaning self.old self.new section.items limit.mw }
    {
        let number = self.gauges();
        self.put(section, limit);
        number
    }

    // One section more over these ground gauges, with a limit in MW, and the number of its gauge; or the first question that they fail.
    pub fn add_section(&mut self, limit: u32, gauges: &[u32]) -> Result<usize, Fault<GridQuestion>>
        ensures { Adds G.meaning self.old self.new gauges.now limit result }
    {
        let (section, limit) = self.check_section(limit, gauges)?;
        Ok(self.push_section(section, limit))
    }
}
