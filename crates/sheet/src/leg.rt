ghost use Rattle.std.specs.Prelude.{◌≡◌, ◌≢◌};

use rules::limit::Limit;
use rules::rate::Rate;
use rules::tariff::Tariff;

// A leg's figures as they come, before they are asked.
#[derive(Clone, Copy, PartialEq, Eq, Debug)]
pub struct LegFigures {
    pub from: u32,
    pub to: u32,
    pub rate: u32,
    pub tariff: u32,
    pub limit: u32,
}

// A directed line between two nodes, with its limit at the sending end.
#[derive(Clone, Copy, PartialEq, Eq, Debug)]
pub struct Leg {
    pub from: usize,
    pub to: usize,
    pub rate: Rate,
    pub tariff: Tariff,
    pub limit: Limit,
    ghost apart: { from ≢ to },
}
