ghost use Rattle.std.specs.Prelude.{◌≡◌, ◌<◌, ◌≤◌, MatchOption};

// What a leg charges for each MWh that leaves it, in thousandths of a yuan.
#[derive(Clone, Copy, PartialEq, Eq, Debug)]
pub struct Tariff {
    pub thousandths: u32,
    ghost within: { thousandths ≤ 1000000 },
}

// A type of its own beside `Limit`, for its unit (limit.rt).
impl Tariff {
    // The tariff of so many thousandths; none where that is out of range.
    pub fn new(thousandths: u32) -> Option<Tariff>
        ensures { MatchOption result (1000000 < thousandths) (λ x. x.thousandths ≡ thousandths) }
    {
        if thousandths > 1_000_000 {
            return None;
        }
        Some(Tariff { thousandths })
    }
}
