ghost use Rattle.std.specs.Prelude.{◌≡◌};
ghost use Rattle.sheet.specs.Numbers.{number};

// What is asked of a node, a leg or a path that is to be entered.
#[derive(Clone, Copy, PartialEq, Eq, Debug)]
pub enum SheetQuestion {
    NodeCount = 5,
    NodeFigures = 6,
    LegCount = 7,
    LegNodes = 8,
    LegFigures = 9,
    PathCount = 10,
    PathLegs = 11,
    PathChain = 12,
    PathNodes = 13,
    PathEnds = 14,
}

impl SheetQuestion {
    // The number that a fault is told by. Each enum of questions has this line, since `as` takes no type parameter; a trait would have it too.
    pub fn number(self) -> u32
        ensures { result ≡ number self }
    {
        self as u32
    }
}
