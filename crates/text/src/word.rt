ghost use Rattle.text.specs.Words.{ReadsWord};

// The words that a line of a case may begin with.
#[derive(Clone, Copy, PartialEq, Eq, Debug)]
pub enum Word {
    Node,
    Leg,
    Path,
    Section,
    Limits,
    Sell,
    Buy,
    Go,
}

// A first word that no line of a case may begin with.
#[derive(Clone, Copy, PartialEq, Eq, Debug)]
pub struct UnknownWord;

// The word that the first word of a line spells.
impl TryFrom<&[u8]> for Word {
    type Error = UnknownWord;

    ghost try_from_gives = { λ first read. ReadsWord first.now read };

    fn try_from(first: &[u8]) -> Result<Word, UnknownWord> {
        match first {
            b"node" => Ok(Word::Node),
            b"leg" => Ok(Word::Leg),
            b"path" => Ok(Word::Path),
            b"section" => Ok(Word::Section),
            b"limits" => Ok(Word::Limits),
            b"sell" => Ok(Word::Sell),
            b"buy" => Ok(Word::Buy),
            b"go" => Ok(Word::Go),
            _ => Err(UnknownWord),
        }
    }
}
