ghost use Rattle.std.specs.Prelude.{◌≡◌, ◌*◌, ◌≤◌, length, map};
ghost use Rattle.rules.specs.Convert.{entering, leaving, one_mw, yield_of, charge_of};
ghost use Rattle.rules.specs.Network.{stretches, routed};
ghost use Rattle.sheet.specs.Places.{laid};
ghost use Rattle.sheet.specs.Views.{legs_of, path_legs, route_of};

use crate::chain::Chain;
use crate::passages::Passages;
use crate::path::{Passage, Path};
use rules::charge::Charge;
use rules::power::Watts;
use rules::yields::Yield;

// What enters the first leg of a path, for each MW sent.
const SENT: Watts = Watts(1_000_000);

impl Chain<'_> {
    // What leaves the last of the legs.
    fn yields(&self) -> Yield
        ensures { result.watts ≡ yield_of (stretches (legs_of self.now.all.now) self.now.numbers.now) }
    {
        let mut landed = SENT;
        let mut left = self.numbers;
        while let [first, rest @ ..] = left {
            landed = self.leg(*first).rate.leaves(landed);
            left = rest;
        }
        Yield { watts: landed.0 }
    }

    // Each leg's tariff on what leaves it, over all legs.
    fn charge(&self) -> Charge
        ensures value { result.billionths ≡ charge_of (stretches (legs_of self.now.all.now) self.now.numbers.now) }
        ensures bound { result.billionths ≤ length self.now.numbers.now * 1000000000000 }
    {
        let mut billionths = 0;
        let mut entering = SENT;
        let mut left = self.numbers;
        while let [first, rest @ ..] = left {
            let leg = self.leg(*first);
            let leaves = leg.rate.leaves(entering);
            billionths += u64::from(leg.tariff.thousandths) * leaves.0;
            entering = leaves;
            left = rest;
        }
        Charge { billionths }
    }

    // The legs in order, each with what enters and what leaves it.
    fn passages(&self) -> Passages
        ensures count { result.count ≡ length self.now.numbers.now }
        ensures legs { map (λ x. x.leg) (laid result) ≡ self.now.numbers.now }
        ensures enters { map (λ x. x.enters.0) (laid result) ≡ entering one_mw (stretches (legs_of self.now.all.now) self.now.numbers.now) }
        ensures leaves { map (λ x. x.leaves.0) (laid result) ≡ leaving one_mw (stretches (legs_of self.now.all.now) self.now.numbers.now) }
    {
        let mut passages = Passages::new();
        let mut enters = SENT;
        for number in self.numbers {
            let leaves = self.leg(*number).rate.leaves(enters);
            passages.push(Passage {
                leg: *number as usize,
                enters,
                leaves,
            });
            enters = leaves;
        }
        passages
    }

    // The path along the legs, with its figures.
    pub(crate) fn path(&self) -> Path
        ensures legs { path_legs result ≡ self.now.numbers.now }
        ensures route { route_of result ≡ routed (legs_of self.now.all.now) self.now.numbers.now }
    {
        Path {
            from: self.start(),
            to: self.end(),
            yields: self.yields(),
            charge: self.charge(),
            passages: self.passages(),
        }
    }
}
