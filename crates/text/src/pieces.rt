ghost use Rattle.std.specs.Prelude.{◌≡◌, ◌+◌, ◌≤◌, length};
ghost use Rattle.std.specs.Iterator.{YieldsFirstRef, item_count};
ghost use Rattle.text.specs.Left.{lines_left, words_left};
ghost use Rattle.text.specs.Pieces.{lines, words};

use crate::split::{first_line, first_word};

// The lines of a text that are still to come.
#[derive(Clone, Debug, Drop)]
pub struct Lines<'a> {
    text: &'a [u8],
}

impl<'a> Lines<'a> {
    // The lines of a text, each without its newline.
    #[tactic(auto, using(crate::proofs::Lengths::lines_few))]
    pub fn new(text: &'a [u8]) -> Lines<'a>
        ensures items { lines_left result ≡ lines text.now }
        ensures few { length (lines_left result) ≤ length text.now }
    {
        Lines { text }
    }
}

impl<'a> Iterator for Lines<'a> {
    type Item = &'a [u8];

    ghost next_gives = { YieldsFirstRef lines_left };

    ghost remaining = { item_count lines_left };

    fn next(&mut self) -> Option<&'a [u8]> {
        let (line, rest) = first_line(self.text)?;
        self.text = rest;
        Some(line)
    }
}

// The words of a line that are still to come. `Lines` and `Words` end in two ways, so one type for both would be no shorter: a last newline starts no
// line, and a last space starts a word. The library's `split` would give the same words and be no plainer: these are told by `words`, which the rules
// of a line cite.
#[derive(Clone, Debug, Drop)]
pub struct Words<'a> {
    line: Option<&'a [u8]>,
}

impl<'a> Words<'a> {
    // The words of a line, which single spaces part.
    #[tactic(auto, using(crate::proofs::Parting::words_few))]
    pub fn new(line: &'a [u8]) -> Words<'a>
        ensures items { words_left result ≡ words line.now }
        ensures few { length (words_left result) ≤ length line.now + 1 }
    {
        Words { line: Some(line) }
    }
}

impl<'a> Iterator for Words<'a> {
    type Item = &'a [u8];

    ghost next_gives = { YieldsFirstRef words_left };

    ghost remaining = { item_count words_left };

    fn next(&mut self) -> Option<&'a [u8]> {
        let (word, rest) = first_word(self.line?);
        self.line = rest;
        Some(word)
    }
}
