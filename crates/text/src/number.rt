ghost use Rattle.std.specs.Prelude.{◌≡◌, ◌<◌, ◌≤◌, length, IfSome, if◌then◌else◌, Some, None};
ghost use Rattle.rules.specs.Lists.{all_of};
ghost use Rattle.text.specs.Figures.{is_digit, value, figure_of, signed_figure_of};

// The value of at most nine digits; none where a byte is not one.
fn digits(word: &[u8]) -> Option<u32>
    requires { length word.now ≤ 9 }
    ensures value { result ≡ (if all_of is_digit word.now then Some (value word.now) else None) }
    ensures bound { IfSome result (λ n. n < 1000000000) }
{
    let mut n = 0;
    for b in word {
        if *b < b'0' || *b > b'9' {
            return None;
        }
        n = n * 10 + u32::from(*b - b'0');
    }
    Some(n)
}

// A whole number of 1 to 9 digits.
pub fn figure(word: &[u8]) -> Option<u32>
    ensures value { result ≡ figure_of word.now }
    ensures bound { IfSome result (λ n. n < 1000000000) }
{
    if word.is_empty() || word.len() > 9 {
        return None;
    }
    digits(word)
}

// A figure that a minus may stand before.
pub fn signed_figure(word: &[u8]) -> Option<i32>
    ensures { result ≡ signed_figure_of word.now }
{
    if let [b'-', rest @ ..] = word {
        Some(-(figure(rest)? as i32))
    } else {
        Some(figure(word)? as i32)
    }
}
