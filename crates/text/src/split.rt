ghost use Rattle.std.specs.Prelude.{◌≡◌, ℕ, ◌+◌, ◌<◌, ◌≤◌, [], ◌∷◌, length, IfSome, MatchOption, ◌≢◌, ◌==◌, slice_index, count_by, unwrap_or};
ghost use Rattle.std.specs.Option.{option_map};
ghost use Rattle.text.specs.Pieces.{parted, parts_of, words, after, words_of, FirstLine};

// The place of the first mark, if there is one.
fn place_of(bytes: &[u8], mark: u8) -> Option<usize>
    ensures found { IfSome result (λ place. (place < length bytes.now) × (slice_index bytes.now place ≡ mark)) }
    ensures before { (k : ℕ) → k < unwrap_or result (length bytes.now) → slice_index bytes.now k ≢ mark }
{
    bytes.iter().position(|b| *b == mark)
}

// What stands before the first mark, and what follows it where there is one.
fn cut(bytes: &[u8], mark: u8) -> (&[u8], Option<&[u8]>)
    ensures follows { option_map (λ x. x.now) result.1 ≡ after mark bytes.now }
    ensures len { MatchOption result.1 (length result.0.now ≡ length bytes.now) (λ x. length result.0.now + 1 + length x.now ≡ length bytes.now) }
    ensures as_lines { 0 < length bytes.now → parted [] mark bytes.now ≡ result.0.now ∷ parts_of [] mark (option_map (λ x. x.now) result.1) }
    ensures as_words { parted ([] ∷ []) mark bytes.now ≡ result.0.now ∷ parts_of ([] ∷ []) mark (option_map (λ x. x.now) result.1) }
{
    match place_of(bytes, mark) {
        Some(end) => (&bytes[..end], Some(&bytes[end + 1..])),
        None => (bytes, None),
    }
}

// The first line of a text, without its newline, and what follows that.
pub fn first_line(text: &[u8]) -> Option<(&[u8], &[u8])>
    ensures { MatchOption result (text.now ≡ []) (λ p. FirstLine text.now p.0.now p.1.now) }
{
    if text.is_empty() {
        return None;
    }
    match cut(text, b'\n') {
        (line, Some(rest)) => Some((line, rest)),
        (line, None) => Some((line, &text[text.len()..])),
    }
}

// The first word of a line, and what follows its space where one follows.
pub fn first_word(line: &[u8]) -> (&[u8], Option<&[u8]>)
    ensures front { words line.now ≡ result.0.now ∷ words_of (option_map (λ x. x.now) result.1) }
    ensures follows { option_map (λ x. x.now) result.1 ≡ after 32 line.now }
    ensures len { MatchOption result.1 (length result.0.now ≡ length line.now) (λ x. length result.0.now + 1 + length x.now ≡ length line.now) }
{
    cut(line, b' ')
}

// How many marks there are. Counted by a loop: the chain `filter(..).count()` takes twice as long.
fn count(bytes: &[u8], mark: u8) -> usize
    ensures value { result ≡ count_by (λ b. b == mark) bytes.now }
    ensures bound { result ≤ length bytes.now }
{
    let mut n = 0;
    for b in bytes {
        if *b == mark {
            n += 1;
        }
    }
    n
}

// One word more than there are spaces.
#[tactic(auto, using(crate::proofs::Parting::words_count))]
pub fn count_words(line: &[u8]) -> usize
    ensures { result ≡ length (words line.now) }
{
    count(line, b' ') + 1
}
