ghost use Rattle.std.specs.Prelude.{◌≡◌, ◌≤◌, length, Some, vec_capacity};
ghost use Rattle.reader.specs.Case.{fits};

use crate::stage::Stage;
use rules::fault::Fault;
use text::question::TextQuestion;
use text::row::{RowError, read_figures};
use text::split::{count_words, first_word};
use text::word::Word;

// Whether so many figures may follow the word.
fn count_fits(word: Word, count: usize) -> bool
    ensures { result ≡ fits (Some word) count }
{
    match word {
        Word::Node => count == 4,
        Word::Leg => count == 5,
        _ => true,
    }
}

// A line of a text that is not too long.
#[derive(Clone, Copy, Debug)]
pub(crate) struct Line<'a> {
    pub(crate) bytes: &'a [u8],
    ghost short: { length bytes.now ≤ 60000 },
}

impl<'a> Line<'a> {
    ghost use Rattle.reader.specs.Steps.{Figured, Turns};

    // The line's word, if it is known and in its turn, and the stage that it leads to.
    pub(crate) fn turn(self, stage: Stage) -> Option<(Word, Stage)>
        ensures { Turns stage self.entry.bytes.now result }
    {
        let (first, _) = first_word(self.bytes);
        let word = Word::try_from(first).ok()?;
        Some((word, stage.after(word)?))
    }

    // Reads the figures after the line's word.
    pub(crate) fn figures(self, word: Word, into: &mut Vec<u32>) -> Result<(), Fault<TextQuestion>>
        requires { 60000 ≤ vec_capacity into.old }
        ensures figures { Figured word self.entry.bytes.now into.old.items into.new.items result }
        ensures room { 60000 ≤ vec_capacity into.new }
    {
        if !count_fits(word, count_words(self.bytes) - 1) {
            return Err(TextQuestion::FigureCount.into());
        }
        let (_, rest) = first_word(self.bytes);
        match read_figures(rest, into) {
            Ok(()) => Ok(()),
            Err(RowError::NoFigure(place)) => Err(Fault {
                question: TextQuestion::Figures,
                place,
            }),
            // A line has no more figures than there is room for.
            Err(RowError::Memory) => unreachable(),
        }
    }
}
