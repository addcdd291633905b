ghost use Rattle.std.specs.Prelude.{◌≡◌};
ghost use Rattle.grid.specs.Numbers.{number};

// What is asked of a section that is to be added, and of MW that are to be booked.
#[derive(Clone, Copy, PartialEq, Eq, Debug)]
pub enum GridQuestion {
    SectionCount = 15,
    SectionGauges = 16,
    SectionLimit = 17,
    BookingPath = 18,
    BookingRoom = 19,
}

impl GridQuestion {
    // The number that a fault is told by. Each enum of questions has this line, since `as` takes no type parameter; a trait would have it too.
    pub fn number(self) -> u32
        ensures { result ≡ number self }
    {
        self as u32
    }
}
