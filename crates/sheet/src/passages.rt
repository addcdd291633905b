ghost use Rattle.std.specs.Prelude.{◌≡◌, ◌+◌, ◌≤◌, ◌<◌, true, [], ◌∷◌, ◌++◌, length, drop};
ghost use Rattle.rules.specs.Lists.{all_of};
ghost use Rattle.sheet.specs.Blanks.{blank_place};
ghost use Rattle.std.proofs.Common.{rules};
ghost use Rattle.std.specs.Cmp.{on_equiv, on_per};
ghost use Rattle.std.specs.Cmp.Rules.{comparing};
ghost use Rattle.std.specs.Cmp.Lexicographic.{pointwise, lists_per, lists_equiv};

use crate::path::Passage;
use rules::power::Watts;
use std::fmt;

// The passages of a path, in the first places of an array. The library's list of a fixed capacity is not `Copy`, as a path is; nor is
// what holds a type with a model copied in every place. The places behind the passages are blank, so a path is all that is read of it.
#[derive(Clone, Copy)]
pub(crate) struct Passages {
    pub(crate) places: [Passage; 8],
    pub(crate) count: usize,
    ghost few: { count ≤ 8 },
    ghost full: { length places ≡ 8 },
    ghost blank: { all_of blank_place (drop count places) ≡ true },
}

impl Passages {
    ghost use Rattle.sheet.specs.Places.{laid};

    pub(crate) fn new() -> Passages
        ensures items { laid result ≡ [] }
        ensures count { result.count ≡ 0 }
    {
        Passages {
            places: [Passage {
                leg: 0,
                enters: Watts(0),
                leaves: Watts(0),
            }; 8],
            count: 0,
        }
    }

    pub(crate) fn push(&mut self, passage: Passage)
        requires { self.old.count < 8 }
        ensures items { laid self.new ≡ laid self.old ++ passage ∷ [] }
        ensures count { self.new.count ≡ self.old.count + 1 }
    {
        self.places[self.count] = passage;
        self.count += 1;
    }

    pub(crate) fn as_slice(&self) -> &[Passage]
        ensures { result.now ≡ laid self.now }
    {
        &self.places[..self.count]
    }
}

// Compared as the lists that they are, so that `==` is told by what is read of a path; a derived one is told by the places and the count.
impl PartialEq for Passages {
    ghost use Rattle.sheet.specs.Places.{laid};

    ghost eq = { λ p q. pointwise ⟦<Passage as PartialEq>⟧.eq (laid p) (laid q) };

    ghost laws = { on_per laid (lists_per (Prim.search (comparing, rules))) };

    fn eq(&self, other: &Passages) -> bool {
        self.as_slice() == other.as_slice()
    }
}

impl Eq for Passages {
    ghost use Rattle.sheet.specs.Places.{laid};

    ghost laws = { on_equiv laid (lists_equiv (Prim.search (comparing, rules))) };
}

// Printed as a list; a derived one prints all eight places.
impl fmt::Debug for Passages {
    fn fmt<W: fmt::Write>(&self, f: &mut fmt::Formatter<W>) -> fmt::Result {
        fmt::Debug::fmt(self.as_slice(), f)
    }
}
