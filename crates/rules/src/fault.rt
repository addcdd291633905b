ghost use Rattle.std.specs.Prelude.{◌≡◌, Some};
ghost use Rattle.rules.specs.Layers.{layer_word};

use std::fmt;

// The first question whose answer is no, with the place, 0 where it has none.
#[derive(Clone, Copy, PartialEq, Eq, Debug)]
pub struct Fault<Q> {
    pub question: Q,
    pub place: usize,
}

impl<Q> Fault<Q> {
    // The same fault, with the question told as one of another kind by a closure, which need take no other question.
    pub fn map<R, F: FnOnce(Q) -> R>(self, tell: F) -> Fault<R>
        requires { F.pre tell self.question }
        ensures question { F.post tell self.question result.question }
        ensures place { result.place ≡ self.place }
    {
        let Fault { question, place } = self;
        Fault {
            question: tell(question),
            place,
        }
    }

    // The same fault, with the question told as one of another kind by `From`, which takes every question.
    pub fn question_into<R: From<Q>>(self) -> Fault<R>
        ensures question { R.from_gives self.question result.question }
        ensures place { result.place ≡ self.place }
    {
        Fault {
            question: R::from(self.question),
            place: self.place,
        }
    }
}

// A question that has no place.
impl<Q> From<Q> for Fault<Q> {
    ghost from_gives = { λ question fault. fault ≡ record { question = question; place = 0 } };

    fn from(question: Q) -> Fault<Q> {
        Fault { question, place: 0 }
    }
}

// The layers of a case, each with questions of its own.
#[derive(Clone, Copy, PartialEq, Eq, Debug)]
pub enum Layer {
    Text,
    Sheet,
    Grid,
    Book,
}

impl Layer {
    // The layer as a fault line writes it.
    pub fn word(self) -> &'static str
        ensures { result.now ≡ layer_word self }
    {
        match self {
            Layer::Text => "text",
            Layer::Sheet => "sheet",
            Layer::Grid => "grid",
            Layer::Book => "book",
        }
    }
}

impl fmt::Display for Layer {
    ghost output = { λ layer. Some (layer_word layer) };

    fn fmt<W: fmt::Write>(&self, f: &mut fmt::Formatter<W>) -> fmt::Result {
        f.write_str(self.word())
    }
}
