ghost use Rattle.std.specs.Prelude.{◌≡◌};
ghost use Rattle.std.specs.Option.{option_map};
ghost use Rattle.conversion.specs.Bids.{bid_of};

use rules::price::Yuan;
use text::number::signed_figure;

// A bid in whole yuan, as a word writes it; none where it is no figure, or out of range.
pub fn bid(word: &[u8]) -> Option<Yuan>
    ensures { option_map (λ b. b.whole) result ≡ bid_of word.now }
{
    signed_figure(word).and_then(Yuan::new)
}
