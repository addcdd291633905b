ghost use Rattle.std.specs.Prelude.{◌≤◌};

// What a path charges, in billionths of a yuan for each MWh sent.
#[derive(Clone, Copy, PartialEq, Eq, Debug)]
pub struct Charge {
    pub billionths: u64,
    ghost within: { billionths ≤ 10000000000000 },
}
