ghost use Rattle.std.specs.Prelude.{◌≡◌, false, pos, negsuc, ◌≤ℤ◌, MatchOption};
ghost use Rattle.rules.specs.Offers.{is_offer};

// An offer in whole yuan for each MWh.
#[derive(Clone, Copy, PartialEq, Eq, Debug)]
pub struct Yuan {
    pub whole: i32,
    ghost low: { negsuc 999 ≤ℤ whole },
    ghost high: { whole ≤ℤ pos 10000 },
}

impl Yuan {
    // The offer of so many yuan; none where that is out of range.
    pub fn new(whole: i32) -> Option<Yuan>
        ensures { MatchOption result (is_offer whole ≡ false) (λ x. x.whole ≡ whole) }
    {
        if whole < -1_000 || whole > 10_000 {
            return None;
        }
        Some(Yuan { whole })
    }
}
