ghost use Rattle.std.specs.Prelude.{◌≡◌};
ghost use Rattle.rules.specs.Convert.{claim_of};

use crate::charge::Charge;
use crate::price::Yuan;
use crate::yields::Yield;

// A price at the sending end, in billionths of a yuan for each MWh sent.
#[derive(Clone, Copy, PartialEq, Eq, Debug)]
pub struct SentPrice(pub i64);

fn net_worth(bid: Yuan, yields: Yield, charge: Charge) -> i64
    ensures { result ≡ claim_of bid.whole yields.watts charge.billionths }
{
    let landed = 1_000 * yields.watts;
    i64::from(bid.whole) * landed as i64 - charge.billionths as i64
}

// What a bid at the far end of a path is worth at its sending end.
pub fn claim(bid: Yuan, yields: Yield, charge: Charge) -> SentPrice
    ensures { result.0 ≡ claim_of bid.whole yields.watts charge.billionths }
{
    SentPrice(net_worth(bid, yields, charge))
}
