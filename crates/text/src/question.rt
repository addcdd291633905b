ghost use Rattle.std.specs.Prelude.{◌≡◌};
ghost use Rattle.text.specs.Numbers.{number};

// What is asked of a text, and then of each of its lines.
#[derive(Clone, Copy, PartialEq, Eq, Debug)]
pub enum TextQuestion {
    Length = 1,
    KnownWord = 2,
    FigureCount = 3,
    Figures = 4,
}

impl TextQuestion {
    // The number that a fault is told by. Each enum of questions has this line, since `as` takes no type parameter; a trait would have it too.
    pub fn number(self) -> u32
        ensures { result ≡ number self }
    {
        self as u32
    }
}
