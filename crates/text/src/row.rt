ghost use Rattle.std.specs.Prelude.{◌≡◌, ◌≤◌, [], vec_capacity};
ghost use Rattle.std.specs.Option.{option_map};
ghost use Rattle.text.specs.Pieces.{words, words_of};
ghost use Rattle.text.specs.Rows.{ReadsRow};
ghost use Rattle.text.specs.declared.row.RowError.TheVariants.{Memory};

use crate::number::figure;
use crate::pieces::Words;
use std::alloc::AllocFailed;

// Why the figures of a line are not read.
#[derive(Clone, Copy, PartialEq, Eq, Debug)]
pub enum RowError {
    // The place of the first word that is no figure.
    NoFigure(usize),
    Memory,
}

impl<T: Drop> From<AllocFailed<T>> for RowError {
    ghost from_gives = { λ _ error. error ≡ Memory };

    fn from(_: AllocFailed<T>) -> RowError {
        RowError::Memory
    }
}

// Reads the words of a line's rest as figures, the first of them having place 2.
fn read_words(rest: &[u8], into: &mut Vec<u32>) -> Result<(), RowError>
    requires { into.old.items ≡ [] }
    ensures reads { ReadsRow (vec_capacity into.old) (words rest.now) result into.new.items }
    ensures room { vec_capacity into.old ≤ vec_capacity into.new }
{
    for (place, word) in (2..).zip(Words::new(rest)) {
        let figure = figure(word).ok_or(RowError::NoFigure(place))?;
        into.push(figure)?;
    }
    Ok(())
}

// Reads what follows a line's first word and its space as figures; none follow where the word stands alone.
pub fn read_figures(rest: Option<&[u8]>, into: &mut Vec<u32>) -> Result<(), RowError>
    ensures reads { ReadsRow (vec_capacity into.old) (words_of (option_map (λ x. x.now) rest.entry)) result into.new.items }
    ensures room { vec_capacity into.old ≤ vec_capacity into.new }
{
    into.clear();
    match rest {
        None => Ok(()),
        Some(rest) => read_words(rest, into),
    }
}
