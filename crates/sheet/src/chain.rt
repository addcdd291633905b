ghost use Rattle.std.specs.Prelude.{◌≡◌, ◌<◌, ◌≤◌, ◌∷◌, true, Ok, Err, length, slice_index, IfOk, MatchResult};
ghost use Rattle.rules.specs.Lists.{has};
ghost use Rattle.rules.specs.Network.{all_entered, leg_at, start_of, end_of};
ghost use Rattle.sheet.specs.Asks.{legs_answer, chain_answer, nodes_answer};
ghost use Rattle.sheet.specs.Views.{leg_of, legs_of};

use crate::leg::Leg;
use arrayvec::ArrayVec;

// A row of 1 to 8 legs, told by their numbers among all that are entered.
#[derive(Clone, Copy, Debug)]
pub(crate) struct Chain<'a> {
    pub(crate) all: &'a [Leg],
    pub(crate) numbers: &'a [u32],
    ghost some: { 1 ≤ length numbers.now },
    ghost few: { length numbers.now ≤ 8 },
    ghost entered: { all_entered (length all.now) numbers.now ≡ true },
}

// Whether a node was met before: the chain starts there, or one of the legs so far ends there.
#[tactic(auto, using(crate::proofs::Chaining::met_before))]
fn was_met(origin: usize, ends: &ArrayVec<usize, 8>, node: usize) -> bool
    ensures { result ≡ has node (origin ∷ ends.now.items) }
{
    origin == node || ends.as_slice().contains(&node)
}

impl<'a> Chain<'a> {
    // The chain of these legs, if there are 1 to 8 and each is entered; or else the place of the first that is not, 0 where their
    // count offends.
    pub(crate) fn new(all: &'a [Leg], numbers: &'a [u32]) -> Result<Chain<'a>, usize>
        ensures answer { MatchResult result (λ _. legs_answer (length all.now) numbers.now ≡ Ok tt) (λ place. legs_answer (length all.now) numbers.now ≡ Err place) }
        ensures all { IfOk result (λ c. c.all.now ≡ all.now) }
        ensures numbers { IfOk result (λ c. c.numbers.now ≡ numbers.now) }
    {
        if numbers.is_empty() || numbers.len() > 8 {
            return Err(0);
        }
        for (i, number) in numbers.iter().enumerate() {
            if *number as usize >= all.len() {
                return Err(i + 1);
            }
        }
        Ok(Chain { all, numbers })
    }

    pub(crate) fn leg(&self, number: u32) -> Leg
        requires { number < length self.now.all.now }
        ensures { leg_of result ≡ leg_at (legs_of self.now.all.now) number }
    {
        self.all[number as usize]
    }

    // The node where it starts.
    pub(crate) fn start(&self) -> usize
        ensures { result ≡ start_of (legs_of self.now.all.now) self.now.numbers.now }
    {
        self.leg(self.numbers[0]).from
    }

    // The node where it ends.
    pub(crate) fn end(&self) -> usize
        ensures { result ≡ end_of (legs_of self.now.all.now) self.now.numbers.now }
    {
        self.leg(self.numbers[self.numbers.len() - 1]).to
    }

    // Whether each leg starts where the last ended; or else the place of the first that does not.
    pub(crate) fn linked(&self) -> Result<(), usize>
        ensures { result ≡ chain_answer (legs_of self.now.all.now) self.now.numbers.now }
    {
        let mut node = self.start();
        let mut left = self.numbers;
        while let [first, rest @ ..] = left {
            let leg = self.leg(*first);
            if leg.from != node {
                return Err(self.numbers.len() - rest.len());
            }
            node = leg.to;
            left = rest;
        }
        Ok(())
    }

    // Whether no node is met twice; or else the place of the first leg that ends at a node met before.
    pub(crate) fn nodes_once(&self) -> Result<(), usize>
        ensures { result ≡ nodes_answer (legs_of self.now.all.now) self.now.numbers.now }
    {
        let origin = self.start();
        let mut ends = ArrayVec::<usize, 8>::new();
        for (i, number) in self.numbers.iter().enumerate() {
            let node = self.leg(*number).to;
            if was_met(origin, &ends, node) {
                return Err(i + 1);
            }
            ends.push(node);
        }
        Ok(())
    }
}
