ghost use Rattle.std.specs.Prelude.{◌≡◌, ◌<◌, ◌≤◌, MatchOption};
ghost use Rattle.rules.specs.LegGrids.{limit_room};

use crate::power::Watts;

// What a leg or a section carries at most, at its sending end. `Rate`, `Tariff` and `Limit` differ in a bound and a unit; one type with a const
// parameter would be no plainer, since the field's name tells the unit.
#[derive(Clone, Copy, PartialEq, Eq, Debug)]
pub struct Limit {
    pub mw: u32,
    ghost within: { mw ≤ 100000 },
}

impl Limit {
    // The limit of so many MW; none where that is out of range.
    pub fn new(mw: u32) -> Option<Limit>
        ensures { MatchOption result (100000 < mw) (λ x. x.mw ≡ mw) }
    {
        if mw > 100_000 {
            return None;
        }
        Some(Limit { mw })
    }
}

// The room that a gauge of this limit has at first.
impl From<Limit> for Watts {
    ghost from_gives = { λ limit room. room ≡ limit_room limit.mw };

    fn from(limit: Limit) -> Watts {
        Watts(u64::from(limit.mw) * 1_000_000)
    }
}
