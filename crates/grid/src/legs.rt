ghost use Rattle.std.specs.Prelude.{◌≡◌, ◌≤◌, true, ◌==◌, vec_len, nat_le};
ghost use Rattle.rules.specs.Grids.{sum_of};
ghost use Rattle.rules.specs.Lists.{all_of};

use rules::power::Watts;

// What a path weighs on each leg, for each MW sent.
#[derive(Debug, Drop)]
pub(crate) struct Row {
    pub(crate) on: Vec<Watts>,
    ghost light: { sum_of on.items ≤ 8000000 },
}

// The grid of a sheet's legs: a ground gauge for each leg, and a row of weights for each path.
#[derive(Debug, Drop)]
pub struct LegGrid {
    pub(crate) rooms: Vec<Watts>,
    pub(crate) rows: Vec<Row>,
    ghost few: { vec_len rooms ≤ 64 },
    ghost roomy: { all_of (λ w. nat_le w.0 100000000000) rooms.items ≡ true },
    ghost even: { all_of (λ r. vec_len r.on == vec_len rooms) rows.items ≡ true },
}
