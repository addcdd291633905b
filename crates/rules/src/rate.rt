ghost use Rattle.std.specs.Prelude.{◌≡◌, ◌<◌, ◌≤◌, MatchOption};
ghost use Rattle.rules.specs.Convert.{lost, passed};

use crate::power::Watts;

// The share of what enters a leg that is lost on it, in millionths.
#[derive(Clone, Copy, PartialEq, Eq, Debug)]
pub struct Rate {
    pub millionths: u32,
    ghost within: { millionths ≤ 200000 },
}

// A type of its own beside `Limit`, for its unit (limit.rt).
impl Rate {
    // The rate of so many millionths; none where that is out of range.
    pub fn new(millionths: u32) -> Option<Rate>
        ensures { MatchOption result (200000 < millionths) (λ x. x.millionths ≡ millionths) }
    {
        if millionths > 200_000 {
            return None;
        }
        Some(Rate { millionths })
    }

    // The W lost of what enters, rounded up.
    fn loss(self, entering: Watts) -> Watts
        ensures value { result.0 ≡ lost self.millionths entering.0 }
        ensures bound { result.0 ≤ entering.0 }
    {
        let scaled = entering.0 as u128 * self.millionths as u128;
        Watts(((scaled + 999_999) / 1_000_000) as u64)
    }

    // What leaves a leg of this rate.
    pub fn leaves(self, entering: Watts) -> Watts
        ensures value { result.0 ≡ passed self.millionths entering.0 }
        ensures bound { result.0 ≤ entering.0 }
    {
        Watts(entering.0 - self.loss(entering).0)
    }
}
