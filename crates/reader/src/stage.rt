ghost use Rattle.std.specs.Prelude.{◌≡◌};
ghost use Rattle.reader.specs.Order.{next_stage};

use text::word::Word;

// How far a case has come in the order of its words.
#[derive(Clone, Copy, PartialEq, Eq, Debug)]
pub enum Stage {
    Nodes,
    Legs,
    Paths,
    Past,
}

impl Stage {
    // The stage that a line of this word leads to; none where the word is out of turn.
    pub(crate) fn after(self, word: Word) -> Option<Stage>
        ensures { result ≡ next_stage self word }
    {
        match (self, word) {
            (Stage::Nodes, Word::Node) => Some(Stage::Nodes),
            (Stage::Nodes, Word::Leg) => Some(Stage::Legs),
            (Stage::Legs, Word::Leg) => Some(Stage::Legs),
            (Stage::Nodes | Stage::Legs | Stage::Paths, Word::Path) => Some(Stage::Paths),
            (_, Word::Section | Word::Limits | Word::Sell | Word::Buy | Word::Go) => {
                Some(Stage::Past)
            }
            _ => None,
        }
    }
}
