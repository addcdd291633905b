ghost use Rattle.std.specs.Prelude.{◌≡◌, ◌≤◌};

use crate::passages::Passages;
use rules::charge::Charge;
use rules::claim::{SentPrice, claim};
use rules::power::Watts;
use rules::price::Yuan;
use rules::yields::Yield;
use std::alloc::AllocError;

// One leg of a path, with what enters and what leaves it of each MW sent.
#[derive(Clone, Copy, PartialEq, Eq, Debug, Default)]
pub struct Passage {
    pub leg: usize,
    pub enters: Watts,
    pub leaves: Watts,
}

// A chain of 1 to 8 legs: its ends, what lands of each MW sent, and what it charges.
#[derive(Copy, PartialEq, Eq, Debug)]
pub struct Path {
    pub from: usize,
    pub to: usize,
    pub yields: Yield,
    pub charge: Charge,
    pub(crate) passages: Passages,
    ghost some: { 1 ≤ passages.count },
    ghost few: { passages.count ≤ 8 },
}

impl Path {
    ghost use Rattle.rules.specs.Convert.{claim_of};
    ghost use Rattle.sheet.specs.Views.{passages_of};

    // The legs in order, each with what enters and what leaves it of each MW sent.
    pub fn passages(&self) -> &[Passage]
        ensures { result.now ≡ passages_of self.now }
    {
        self.passages.as_slice()
    }

    // What a bid at the far end is worth at the sending end.
    pub fn claim(&self, bid: Yuan) -> SentPrice
        ensures { result.0 ≡ claim_of bid.whole self.now.yields.watts self.now.charge.billionths }
    {
        claim(bid, self.yields, self.charge)
    }
}

// A copy is the path itself, and wants no memory. It is written out, so that a clone that loses a figure can be tried as an edit.
impl Clone for Path {
    ghost use Rattle.std.specs.Bool.{⊤};

    ghost is_clone = { λ path copy. copy ≡ path };

    ghost is_infallible = { λ _. ⊤ };

    fn clone(&self) -> Result<Path, AllocError> {
        Ok(*self)
    }
}
