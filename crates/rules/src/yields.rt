ghost use Rattle.std.specs.Prelude.{◌≤◌};

// What lands of each MW sent along a path, in W.
#[derive(Clone, Copy, PartialEq, Eq, Debug)]
pub struct Yield {
    pub watts: u64,
    ghost some: { 1 ≤ watts },
    ghost within: { watts ≤ 1000000 },
}
